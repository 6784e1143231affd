//! A list of groups alone, which a configuration reads with the path of its fault.
use ps_group::DataKind;
use ps_group::groups::Groups;
use ps_group::read::GroupFault;
use serde_json::Value;
use std::alloc::Global;
use std::process::Abort;

/// A list without a fault.
const GOOD: &str =
    r#"[{"symbol":"+","id":"v","name":"","inherit":" "},{"symbol":" ","id":"u","name":""}]"#;

/// A list whose second group repeats a symbol.
const REPEATED: &str =
    r#"[{"symbol":" ","id":"v","name":"","inherit":" "},{"symbol":" ","id":"u","name":""}]"#;

// Memory that is refused ends a test at once: what may return in between would be slow to prove. So would a value of many parts
// be that ends beside others: each kind of them has one function in which it ends alone.

fn json(rt: &impl Abort, alloc: Global, text: &str) -> Value {
    Value::from_str(alloc, text).expect(rt, "a JSON text")
}

fn end_json(_value: Value) {}

/// The index and the kind of the first fault.
fn fault(alloc: Global, value: &Value) -> Option<GroupFault> {
    match Groups::from_value(alloc, value) {
        Ok(_) => None,
        Err(fault) => Some(fault),
    }
}

fn fault_of(rt: &impl Abort, alloc: Global, text: &str) -> Option<GroupFault> {
    let value = json(rt, alloc, text);
    let fault = fault(alloc, &value);
    end_json(value);
    fault
}

#[test]
fn a_list_of_groups(rt: HostRuntime) {
    let repeated = GroupFault::Fault {
        index: 1,
        kind: DataKind::Repeat,
    };
    assert_eq!(rt; fault_of(&rt, rt.alloc(), GOOD), None);
    assert_eq!(rt; fault_of(&rt, rt.alloc(), REPEATED), Some(repeated));
}
