//! The README's worked session: `scripts/check readme` holds the README to these two texts.

use crate::tests::told::Text::Whole;
use crate::tests::told::{Case, PLAY_OF_1024, WRITTEN, check_case};
use std::test::Fail;

const INPUT: &str = r#"{
  "format": 1,
  "teams": ["T1", "T2", "T3", "T4"],
  "distances": [
    [0, 1, 2, 1],
    [1, 0, 1, 2],
    [2, 1, 0, 1],
    [1, 2, 1, 0]
  ]
}
script
# the opening game is fixed
pin 1 1 4
homes 1 2
rounds 1 2
undo
rounds 5 6
"#;

const OUTPUT: &str = r#"start travel 30 hard 0 soft 0
done 1 travel 30 hard 0 soft 0
done 2 travel 26 hard 0 soft 0
no 2 pinned
done 3 travel 30 hard 0 soft 0
done 4 travel 28 hard 0 soft 0
history 4
pin 1 1 4
homes 1 2
undo
rounds 5 6
end
league 4 teams 6 rounds
team 1 HHAAHA T1
team 2 HAHAAH T2
team 3 AAHHAH T3
team 4 AHAHHA T4
round 1: 1-4 2-3
round 2: 1-2 4-3
round 3: 2-4 3-1
round 4: 3-2 4-1
round 5: 1-3 4-2
round 6: 2-1 3-4
best 26 at 2
"#;

const SESSION: Case<'_> = (PLAY_OF_1024, &[INPUT], WRITTEN, Whole(&[OUTPUT]));

#[test]
fn readme_session_prints_what_it_says(rt: HostRuntime) -> Result<(), Fail> {
    check_case(&rt, rt.alloc(), &SESSION)
}
