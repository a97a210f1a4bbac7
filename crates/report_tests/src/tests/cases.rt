//! Rules, each with the lines and the marks that were found by hand on the Berger start of four teams:
//!
//! | Round | Games | | Team | At home |
//! |---|---|---|---|---|
//! | 1 | 1-4 2-3 | | 1 | 1 2 6 |
//! | 2 | 1-2 4-3 | | 2 | 1 3 5 |
//! | 3 | 2-4 3-1 | | 3 | 3 4 5 |
//! | 4 | 4-1 3-2 | | 4 | 2 4 6 |
//! | 5 | 2-1 3-4 | | | |
//! | 6 | 4-2 1-3 | | | |

use league::League;
use league_json::read_league;
use std::alloc::Global;
use std::test::Fail;

/// A rule without its kind, its lines, and a row for each team with `#` for each game that is named.
pub(crate) type Case = (&'static str, &'static str, &'static str);

/// No game is named.
const NONE: &str = "......\n......\n......\n......\n";

/// Each class once broken and once kept, some several times.
pub(crate) const CASES: &[Case] = &[
    (
        r#""class":"CA1","teams":[2,4],"mode":"A","slots":[1,3,5],"max":1"#,
        "over rule 1 team 4 by 2: 1-4 @ 1 2-4 @ 3 3-4 @ 5\n",
        "......\n......\n......\n#.#.#.\n",
    ),
    (
        r#""class":"CA1","teams":[2,4],"mode":"A","slots":[1,3,5],"max":3"#,
        "",
        NONE,
    ),
    (
        r#""class":"CA2","teams1":[1],"mode":"A","teams2":[3,4],"slots":[3,4],"max":0"#,
        "over rule 1 team 1 by 2: 3-1 @ 3 4-1 @ 4\n",
        "..##..\n......\n......\n......\n",
    ),
    (
        r#""class":"CA2","teams1":[1],"mode":"A","teams2":[3,4],"slots":[3,4],"max":2"#,
        "",
        NONE,
    ),
    (
        r#""class":"CA3","teams1":[1,3],"mode":"H","intp":3,"max":1"#,
        "over rule 1 team 1 rounds 1-3 by 1: 1-4 @ 1 1-2 @ 2\n\
        over rule 1 team 3 rounds 2-4 by 1: 3-1 @ 3 3-2 @ 4\n\
        over rule 1 team 3 rounds 3-5 by 2: 3-1 @ 3 3-2 @ 4 3-4 @ 5\n\
        over rule 1 team 3 rounds 4-6 by 1: 3-2 @ 4 3-4 @ 5\n",
        "##....\n......\n..###.\n......\n",
    ),
    (
        r#""class":"CA3","teams1":[1,3],"mode":"H","intp":3,"max":3"#,
        "",
        NONE,
    ),
    (
        r#""class":"CA4","teams1":[1,2],"mode":"HA","teams2":[1,2,3],"mode2":"EVERY","max":1"#,
        "over rule 1 round 2 by 1: 1-2 1-2\nover rule 1 round 5 by 1: 2-1 2-1\n",
        ".#..#.\n.#..#.\n......\n......\n",
    ),
    (
        r#""class":"CA4","teams1":[1,2],"mode":"HA","teams2":[1,2,3],"mode2":"EVERY","max":2"#,
        "",
        NONE,
    ),
    (
        r#""class":"CA4","teams1":[1,2],"mode":"H","teams2":[3,4],"slots":[1,6],"mode2":"GLOBAL","max":1"#,
        "over rule 1 by 2\n",
        "#....#\n#.....\n......\n......\n",
    ),
    (
        r#""class":"CA4","teams1":[1,2],"mode":"H","teams2":[3,4],"slots":[1,6],"mode2":"GLOBAL","max":3"#,
        "",
        NONE,
    ),
    (
        r#""class":"GA1","games":[[3,4],[1,2],[2,3]],"slots":[2,5,6],"min":0,"max":1"#,
        "over rule 1 by 1: 3-4 @ 5 1-2 @ 2\n",
        ".#....\n.#....\n....#.\n....#.\n",
    ),
    (
        r#""class":"GA1","games":[[3,4],[1,2]],"slots":[2],"min":2,"max":2"#,
        "under rule 1 by 1: 3-4 @ 5 1-2 @ 2\n",
        ".#....\n.#....\n....#.\n....#.\n",
    ),
    (
        r#""class":"GA1","games":[[3,4],[1,2]],"slots":[2],"min":1,"max":1"#,
        "",
        NONE,
    ),
    (
        r#""class":"BR1","teams":[1,3],"mode":"A","intp":1"#,
        "over rule 1 team 1 by 1: rounds 4 5\n",
        "...##.\n......\n......\n......\n",
    ),
    (
        r#""class":"BR1","teams":[1,3],"mode":"A","intp":2"#,
        "",
        NONE,
    ),
    (
        r#""class":"BR2","teams":[1,2,3,4],"intp":4"#,
        "over rule 1 by 2\n",
        ".#.##.\n......\n.#.##.\n......\n",
    ),
    (r#""class":"BR2","teams":[1,2,3,4],"intp":6"#, "", NONE),
    (
        r#""class":"SE1","teams":[1,2,4],"min":3"#,
        "under rule 1 teams 1-2 by 1: rounds 2 5\n\
        under rule 1 teams 1-4 by 1: rounds 1 4\n\
        under rule 1 teams 2-4 by 1: rounds 3 6\n",
        "##.##.\n.##.##\n......\n#.##.#\n",
    ),
    (r#""class":"SE1","teams":[1,2,4],"min":2"#, "", NONE),
    (
        r#""class":"FA2","teams":[1,2,3,4],"intp":1"#,
        "over rule 1 teams 1-3 round 2 by 1\n",
        NONE,
    ),
    (
        r#""class":"FA2","teams":[1,3],"slots":[1,3],"intp":0"#,
        "over rule 1 teams 1-3 round 1 by 1\n",
        NONE,
    ),
    (r#""class":"FA2","teams":[1,2,3,4],"intp":2"#, "", NONE),
];

/// A league of four teams with this rule alone.
pub(crate) fn league_with(alloc: Global, rule: &str) -> Result<League, Fail> {
    let text = format!(in alloc;
        "{{\"format\":2,\"teams\":[\"A\",\"B\",\"C\",\"D\"],\
        \"distances\":[[0,0,0,0],[0,0,0,0],[0,0,0,0],[0,0,0,0]],\"rules\":[{{\"kind\":\"hard\",{rule}}}]}}"
    )?;
    Ok(read_league(alloc, text.as_bytes())?)
}
