//! The numbers of a battle, worked by hand.
use ps_calc::chances::{accuracy_byte, crit_byte};
use ps_calc::draws::Rng5;
use ps_calc::formula::{Hit, damage};
use ps_calc::health::{hundredths, pixels};
use ps_calc::stages::staged;
use ps_calc::stats::{dv, hp_dv, hp_stat, stat};

/// Power 85 of a member's own type, 298 Attack against 228 Defense, at level 100.
const BODY_SLAM: Hit = Hit {
    level: 100,
    power: 85,
    attack: 298,
    defence: 228,
    crit: false,
    stab: true,
    factors: [10, 10],
    roll: 255,
};

#[test]
fn dvs(rt: HostRuntime) {
    assert_eq!(rt; (dv(31), dv(30), dv(1)), (15, 15, 0));
}

#[test]
fn dvs_of_hp(rt: HostRuntime) {
    assert_eq!(rt;
        (
            hp_dv([15, 15, 15, 15]),
            hp_dv([1, 0, 0, 0]),
            hp_dv([0, 0, 1, 0])
        ),
        (15, 8, 2)
    );
}

#[test]
fn a_member_of_level_100(rt: HostRuntime) {
    assert_eq!(rt; hp_stat(75, 15, 252, 100), 353);
    let stats = [(100, 298), (95, 288), (70, 238), (110, 318)];
    for (base, number) in &stats {
        assert_eq!(rt; stat(*base, 15, 252, 100), *number);
    }
}

#[test]
fn the_greatest_stats(rt: HostRuntime) {
    assert_eq!(rt;
        (hp_stat(255, 15, 255, 100), stat(255, 15, 255, 100)),
        (713, 608)
    );
}

#[test]
fn hits(rt: HostRuntime) {
    let weak = Hit {
        roll: 217,
        ..BODY_SLAM
    };
    let sharp = Hit {
        crit: true,
        ..BODY_SLAM
    };
    assert_eq!(rt;
        (damage(&BODY_SLAM), damage(&weak), damage(&sharp)),
        (141, 119, 273)
    );
}

#[test]
fn stages(rt: HostRuntime) {
    assert_eq!(rt;
        (
            staged(100, -6),
            staged(100, 1),
            staged(999, 6),
            staged(1, -6)
        ),
        (25, 150, 999, 1)
    );
}

#[test]
fn chances(rt: HostRuntime) {
    assert_eq!(rt;
        (
            accuracy_byte(100, 0, 0),
            accuracy_byte(90, 0, 0),
            accuracy_byte(100, 0, 1)
        ),
        (255, 229, 168)
    );
    assert_eq!(rt;
        (
            crit_byte(110, false, false),
            crit_byte(110, true, false),
            crit_byte(110, false, true)
        ),
        (55, 255, 13)
    );
}

#[test]
fn hundredths_are_rounded_up(rt: HostRuntime) {
    assert_eq!(rt;
        (
            hundredths(353, 353),
            hundredths(352, 353),
            hundredths(1, 703),
            hundredths(0, 353),
            hundredths(382, 523)
        ),
        (100, 99, 1, 0, 74)
    );
}

#[test]
fn pixels_are_rounded_down(rt: HostRuntime) {
    assert_eq!(rt;
        (
            pixels(382, 523),
            pixels(352, 353),
            pixels(1, 703),
            pixels(353, 353),
            pixels(0, 353)
        ),
        (35, 47, 1, 48, 0)
    );
}

#[test]
fn draws_from_zero(rt: HostRuntime) {
    let mut source = Rng5 { x: 0 };
    assert_eq!(rt;
        (source.draw(256), source.draw(256), source.draw(39)),
        (0, 113, 1)
    );
    let mut source = Rng5 { x: 0 };
    assert!(rt; source.chance(1) && !source.chance(113));
}
