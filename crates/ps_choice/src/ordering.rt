//! Orders of a team: the positions of its members, from 1, and 0 behind the last.
ghost use Rattle.std.specs.Prelude.{◌≡◌, ◌<◌, IfSome};
ghost use Rattle.ps_mon.specs.Orders.{has_number, is_place, are_positions, is_order};
ghost use Rattle.ps_choice.specs.Orders.{first_zero, set_at, placed_last, whole, digit_at, numbers_in, order_of};

/// No position is named.
pub(crate) const NOBODY: [u8; 6] = [0, 0, 0, 0, 0, 0];

fn has_number(numbers: &[u8], number: u8) -> bool
    ensures { result ≡ has_number number numbers.now }
{
    numbers.iter().any(|other| *other == number)
}

#[tactic(auto, unfolding(ps_mon::specs::Orders::is_place))]
fn is_place(count: u8, named: u8, numbers: [u8; 6], place: u8) -> bool
    requires { place < 6 }
    ensures { result ≡ is_place count named numbers place }
{
    let number = numbers[place as usize];
    if place < named {
        return number > 0 && number <= count && !has_number(&numbers[..place as usize], number);
    }
    number == 0
}

/// Whether so many are different positions of so many members, and 0 behind them.
#[tactic(auto, unfolding(ps_mon::specs::Orders::are_positions))]
pub(crate) fn are_positions(count: u8, named: u8, numbers: [u8; 6]) -> bool
    ensures { result ≡ are_positions count named numbers }
{
    is_place(count, named, numbers, 0)
        && is_place(count, named, numbers, 1)
        && is_place(count, named, numbers, 2)
        && is_place(count, named, numbers, 3)
        && is_place(count, named, numbers, 4)
        && is_place(count, named, numbers, 5)
}

/// Whether these are all positions, each once.
pub(crate) fn is_order(count: u8, numbers: [u8; 6]) -> bool
    ensures { result ≡ is_order count numbers }
{
    are_positions(count, count, numbers)
}

#[tactic(auto, unfolding(crate::specs::Orders::first_zero))]
fn first_zero(numbers: [u8; 6]) -> Option<usize>
    ensures index { result ≡ first_zero numbers }
    ensures within { IfSome result (λ k. k < 6) }
{
    numbers.iter().position(|number| *number == 0)
}

#[tactic(auto, unfolding(crate::specs::Orders::placed_last))]
fn placed_last(count: u8, position: u8, numbers: [u8; 6]) -> [u8; 6]
    ensures { result ≡ placed_last count position numbers }
{
    if position > count || has_number(&numbers, position) {
        return numbers;
    }
    match first_zero(numbers) {
        None => numbers,
        Some(place) => {
            let mut later = numbers;
            later[place] = position;
            later
        }
    }
}

/// The order that begins with some positions: those that aren't named follow in ascending order.
#[tactic(auto, unfolding(crate::specs::Orders::whole))]
pub(crate) fn whole(count: u8, numbers: [u8; 6]) -> [u8; 6]
    ensures { result ≡ whole count numbers }
{
    let one = placed_last(count, 1, numbers);
    let two = placed_last(count, 2, one);
    let three = placed_last(count, 3, two);
    let four = placed_last(count, 4, three);
    let five = placed_last(count, 5, four);
    placed_last(count, 6, five)
}

#[tactic(auto, unfolding(crate::specs::Orders::digit_at))]
fn digit_at(digits: &[u8], place: usize) -> u8
    ensures { result ≡ digit_at digits.now place }
{
    match digits.get(place) {
        None => 0,
        Some(digit) => digit.saturating_sub(b'0'),
    }
}

#[tactic(auto, unfolding(crate::specs::Orders::numbers_in))]
fn numbers_in(digits: &[u8]) -> [u8; 6]
    ensures { result ≡ numbers_in digits.now }
{
    [
        digit_at(digits, 0),
        digit_at(digits, 1),
        digit_at(digits, 2),
        digit_at(digits, 3),
        digit_at(digits, 4),
        digit_at(digits, 5),
    ]
}

/// The order of so many members that begins with those that the digits of a text name; no order where a digit names none, or
/// one that an earlier digit names.
#[tactic(auto, unfolding(crate::specs::Orders::order_of))]
pub(crate) fn order_of(count: u8, digits: &[u8]) -> [u8; 6]
    ensures { result ≡ order_of count digits.now }
{
    let numbers = numbers_in(digits);
    if digits.len() <= 6 && are_positions(count, digits.len() as u8, numbers) {
        return whole(count, numbers);
    }
    NOBODY
}
