//! Whole walks: their laws, and beside the twin.

ghost use Rattle.std.specs.Prelude.{◌≤◌};
ghost use Rattle.policy.specs.Limits.{max_effort};

use crate::walks::{Feasible, Place, Walk, walked};
use policy::{Aim, Facts, MAX_EFFORT, MoveSet, Policy, WeightCourse};
use std::process::Abort;

const EFFORTS: [u64; 13] = [
    1,
    2,
    3,
    10,
    16,
    100,
    1000,
    12_345,
    1_000_000,
    9_999_999,
    10_000_000,
    100_000_000,
    1_000_000_000,
];

/// A walk: the teams, the effort, the kind and whether the start breaks hard rules.
type Setting = (u8, u64, Kind, bool);

#[derive(Clone, Copy, Debug, PartialEq, Eq)]
enum Kind {
    Search,
    /// A search from a given start.
    Going,
    /// A search whose first half ends without a feasible version, and whose tries become feasible.
    Heated,
    /// A search of which nothing becomes feasible.
    Stuck,
    Repair,
    /// A repair of which no try becomes feasible.
    Failing,
}

const KINDS: [Kind; 6] = [
    Kind::Search,
    Kind::Going,
    Kind::Heated,
    Kind::Stuck,
    Kind::Repair,
    Kind::Failing,
];

const SIXTEEN: Setting = (16, 1_000_000, Kind::Search, false);

const EIGHT: Setting = (8, 10_000_000, Kind::Search, false);

const TWENTY: Setting = (20, 100_000_000, Kind::Search, false);

const TWO_GROUPS: Setting = (20, 30_000_000, Kind::Search, false);

const FORTY: Setting = (40, 12_345_678, Kind::Search, false);

const TWO_GO_ON: Setting = (14, 5_000_000, Kind::Search, false);

const THREE_GO_ON: Setting = (14, 7_000_000, Kind::Search, false);

const GOING: Setting = (16, 1_000_000, Kind::Going, false);

const REPAIR: Setting = (12, 1_000_000, Kind::Repair, false);

const LONG_REPAIR: Setting = (12, 10_000_000, Kind::Repair, false);

const FAILING: Setting = (18, 3_333_333, Kind::Failing, false);

const FEW_STEPS: Setting = (4, 50, Kind::Search, false);

const FEW_TRIES: Setting = (6, 7, Kind::Failing, false);

const HEATED: Setting = (20, 10_000_000, Kind::Heated, false);

const HEATED_TEN: Setting = (10, 10_000_000, Kind::Heated, false);

const STUCK: Setting = (16, 1_000_000, Kind::Stuck, false);

const STUCK_TEN: Setting = (10, 10_000_000, Kind::Stuck, false);

const STUCK_FOUR: Setting = (4, 50, Kind::Stuck, false);

const RULED: Setting = (16, 1_000_000, Kind::Search, true);

const RULED_HEATED: Setting = (20, 10_000_000, Kind::Heated, true);

const RULED_STUCK: Setting = (20, 30_000_000, Kind::Stuck, true);

const RULED_GOING: Setting = (16, 1_000_000, Kind::Going, true);

const RULED_FEW: Setting = (12, 10_000_000, Kind::Heated, true);

const RULED_REPAIR: Setting = (18, 3_333_333, Kind::Failing, true);

/// A setting, and what `scripts/oracle policy` has for it: the numbers of waves and legs, and the sums of both.
type Row = (Setting, [u64; 4]);

const ROWS: [Row; 24] = [
    (SIXTEEN, [17, 68, 62_834, 12_985_776_099_164_480]),
    (EIGHT, [19, 86, 78_023, 46_443_952_391_968_615]),
    (TWENTY, [19, 94, 78_623, 311_063_755_050_862_537]),
    (TWO_GROUPS, [19, 86, 78_023, 101_063_752_881_589_061]),
    (FORTY, [17, 70, 62_934, 61_204_948_482_795_774]),
    (TWO_GO_ON, [18, 74, 69_958, 26_420_945_209_103_594]),
    (THREE_GO_ON, [19, 80, 77_513, 32_032_644_259_903_950]),
    (FEW_STEPS, [17, 28, 62_834, 5_770_120_041_942_571]),
    (GOING, [17, 67, 62_834, 12_985_776_098_996_294]),
    (REPAIR, [17, 72, 63_034, 29_249_968_225_573_536]),
    (LONG_REPAIR, [9, 48, 18_938, 19_956_768_295_799_864]),
    (FAILING, [18, 72, 70_446, 391_221_218_913_717_439]),
    (FEW_TRIES, [4, 7, 4_114, 3_578_512_027_810_637]),
    (HEATED, [18, 78, 70_356, 39_516_864_335_312_271]),
    (HEATED_TEN, [18, 82, 70_776, 39_516_864_354_469_129]),
    (STUCK, [19, 76, 78_068, 424_274_771_135_692_392]),
    (STUCK_TEN, [20, 86, 86_830, 477_020_975_561_216_241]),
    (STUCK_FOUR, [10, 18, 22_448, 24_963_032_183_610_521]),
    (RULED, [17, 68, 62_834, 17_779_152_135_215_936]),
    (RULED_HEATED, [18, 82, 70_158, 49_588_395_406_903_316]),
    (RULED_STUCK, [19, 86, 77_823, 111_071_904_932_621_735]),
    (RULED_GOING, [17, 67, 62_834, 17_779_152_134_998_750]),
    (RULED_FEW, [18, 78, 70_476, 39_516_864_340_286_723]),
    (RULED_REPAIR, [18, 72, 70_446, 391_221_218_913_717_439]),
];

/// A leg that the twin shows for a setting: its wave, bout and place there, its moves, from, to and steps.
type Shown = (Setting, [u32; 3], MoveSet, [u64; 3]);

const LEGS: [Shown; 28] = [
    (SIXTEEN, [0, 1, 1], MoveSet::Loose, [600, 300, 131_250]),
    (EIGHT, [0, 3, 0], MoveSet::Full, [600, 150, 897_600]),
    (EIGHT, [0, 4, 0], MoveSet::Loose, [1500, 300, 897_600]),
    (EIGHT, [0, 6, 0], MoveSet::Rigid, [2000, 500, 314_160]),
    (EIGHT, [2, 0, 1], MoveSet::Full, [300, 150, 312_500]),
    (TWENTY, [0, 3, 0], MoveSet::Loose, [1500, 300, 4_700_000]),
    (
        TWO_GROUPS,
        [0, 4, 0],
        MoveSet::Loose,
        [1500, 300, 2_625_000],
    ),
    (TWO_GROUPS, [0, 6, 0], MoveSet::Rigid, [2000, 500, 918_750]),
    (FORTY, [0, 0, 0], MoveSet::Rigid, [2000, 500, 540_123]),
    (GOING, [0, 0, 0], MoveSet::Full, [300, 150, 62_500]),
    (REPAIR, [0, 0, 0], MoveSet::Repair, [1000, 5000, 125_000]),
    (REPAIR, [0, 1, 1], MoveSet::Repair, [1600, 100, 123_000]),
    (LONG_REPAIR, [2, 3, 0], MoveSet::Repair, [1105, 100, 78_125]),
    (
        FAILING,
        [1, 0, 0],
        MoveSet::WideRepair,
        [1000, 20_000, 208_334],
    ),
    (
        FAILING,
        [2, 3, 0],
        MoveSet::WideRepair,
        [10_000, 100, 13_020],
    ),
    (HEATED, [1, 1, 1], MoveSet::Full, [700, 100, 623_000]),
    (STUCK, [1, 0, 0], MoveSet::Full, [1000, 5000, 62_500]),
    (STUCK, [2, 3, 0], MoveSet::Full, [1000, 20_000, 31_250]),
    (STUCK_TEN, [1, 0, 0], MoveSet::Full, [300, 800, 625_000]),
    (STUCK_TEN, [2, 3, 0], MoveSet::Full, [1000, 5000, 312_500]),
    (STUCK_TEN, [7, 3, 0], MoveSet::Full, [20_000, 100, 9765]),
    (RULED, [0, 0, 0], MoveSet::Rigid, [3000, 500, 43_750]),
    (
        RULED_HEATED,
        [2, 0, 1],
        MoveSet::Partial,
        [1700, 150, 51_084],
    ),
    (
        RULED_HEATED,
        [7, 3, 0],
        MoveSet::Partial,
        [300, 150, 52_083],
    ),
    (
        RULED_HEATED,
        [13, 3, 0],
        MoveSet::Partial,
        [400, 150, 52_083],
    ),
    (
        RULED_STUCK,
        [0, 4, 0],
        MoveSet::Rigid,
        [3000, 500, 2_296_875],
    ),
    (
        RULED_STUCK,
        [13, 3, 0],
        MoveSet::Partial,
        [300, 2000, 117_187],
    ),
    (RULED_FEW, [0, 0, 0], MoveSet::Rigid, [2000, 500, 437_500]),
];

/// A walk of a setting. No effort is above the most.
fn walk(setting: Setting) -> Walk
    ensures teams { 4 ≤ result.facts.teams }
    ensures effort { result.facts.effort ≤ max_effort }
{
    let (teams, effort, kind, breaks_rules) = setting;
    Walk {
        facts: Facts {
            teams: teams.max(4),
            effort: effort.min(MAX_EFFORT),
            aim: match kind {
                Kind::Search | Kind::Heated | Kind::Stuck => Aim::Anew,
                Kind::Going => Aim::GoOn,
                Kind::Repair | Kind::Failing => Aim::Repair,
            },
            breaks_rules,
        },
        feasible: match kind {
            Kind::Search | Kind::Going => Feasible::All,
            Kind::Heated | Kind::Repair => Feasible::Heated,
            Kind::Stuck | Kind::Failing => Feasible::None,
        },
        two_at_once: false,
        shown: Place {
            wave: 0,
            bout: 0,
            leg: 0,
        },
    }
}

/// Fails unless a walk takes the whole effort in a few waves of bouts of two legs at most, and at most a sixteenth of it, or
/// a step, in its first chain, and the order in which bouts are told changes nothing.
fn check_walk(rt: &impl Abort, walk: Walk)
    requires teams { 4 ≤ walk.facts.teams }
    requires effort { walk.facts.effort ≤ max_effort }
{
    let totals = walked(walk);
    let overlapping = walked(Walk {
        two_at_once: true,
        ..walk
    });
    let holds = totals.taken == walk.facts.effort
        && totals.thirds == 0
        && totals.waves <= 20
        && (walk.facts.aim == Aim::Repair || totals.early <= (walk.facts.effort / 16).max(1))
        && overlapping == totals;
    assert!(rt; holds, "{walk:?} {totals:?} {overlapping:?}");
}

#[test]
fn whole_efforts_are_taken(rt: HostRuntime) {
    for teams in [4, 7, 10, 12, 13, 14, 20, 31, 40] {
        for effort in EFFORTS {
            for kind in KINDS {
                check_walk(&rt, walk((teams, effort, kind, false)));
            }
        }
    }
}

#[test]
fn whole_efforts_are_taken_from_starts_that_break_rules(rt: HostRuntime) {
    for teams in [12, 13, 14, 20, 40] {
        for effort in EFFORTS {
            for kind in KINDS {
                check_walk(&rt, walk((teams, effort, kind, true)));
            }
        }
    }
}

#[test]
fn the_most_effort_is_taken(rt: HostRuntime) {
    check_walk(&rt, walk((40, MAX_EFFORT, Kind::Search, false)));
}

#[test]
fn walks_as_the_twin_has_them(rt: HostRuntime) {
    for (setting, wanted) in ROWS {
        let totals = walked(walk(setting));
        let found = [
            u64::from(totals.waves),
            totals.legs,
            totals.of_waves,
            totals.of_legs,
        ];
        assert_eq!(rt; found, wanted, "{setting:?}");
    }
}

#[test]
fn legs_as_the_twin_has_them(rt: HostRuntime) {
    for (setting, [wave, bout, leg], moves, numbers) in LEGS {
        let shown = Place { wave, bout, leg };
        let totals = walked(Walk {
            shown,
            ..walk(setting)
        });
        assert_eq!(rt;
            totals.shown,
            Some((moves, numbers)),
            "{setting:?} {shown:?}"
        );
    }
}

/// The weights of the first waves, of which nothing was told.
fn weights(teams: u8, aim: Aim, breaks_rules: bool) -> [WeightCourse; 13]
    requires { 4 ≤ teams }
{
    let mut policy = Policy::new(Facts {
        teams,
        effort: 10_000_000,
        aim,
        breaks_rules,
    });
    let mut weights = [policy.weights(); 13];
    for wave in &mut weights {
        let _ = policy.wave();
        *wave = policy.weights();
    }
    weights
}

#[test]
fn weights_of_a_breach(rt: HostRuntime) {
    let of = |first: u64, most: u64, rule: Option<u64>| WeightCourse {
        first,
        least: 300_000,
        most,
        rule,
    };
    let low = of(2_000_000, 100_000_000, None);
    let near = of(10_000_000, 25_000_000, None);
    let wide = of(10_000_000, 100_000_000, None);
    let mut repair = [wide; 13];
    repair[0] = near;
    let mut search = [wide; 13];
    search[0] = low;
    search[1] = low;
    search[2] = near;
    assert_eq!(rt; weights(16, Aim::Repair, true), repair);
    assert_eq!(rt; weights(12, Aim::Anew, true), search);
    assert_eq!(rt; weights(16, Aim::GoOn, false), search);
    let mut ruled = [of(2_000_000, 10_000_000, Some(20_000_000)); 13];
    ruled[0] = of(2_000_000, 10_000_000, Some(8_000_000));
    assert_eq!(rt; weights(16, Aim::Anew, true), ruled);
    assert_eq!(rt; weights(16, Aim::GoOn, true), ruled);
}
