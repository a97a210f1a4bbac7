//! The questions of a worker to its board, step by step. The expected lines are those of `scripts/oracle worker-steps` but for its `told`.

use crate::tests::boards::{Beginning, begin, circle, new_board};
use crate::tests::checks::check_same;
use crate::tests::recorder::{Passed, Recorder};
use fixture_board::{Board, Change};
use fixtures::Game;
use moves::Move;
use search::{Report, WorkerPlan, worker};
use std::alloc::Global;
use std::fmt::Write;
use std::process::Abort;
use std::sync::{Mutex, Wait};

/// A worker's plan, its board, and what it then asks of it.
#[derive(Clone, Copy)]
struct Scene {
    seed: u64,
    worker: u32,
    teams: u8,
    steps: u32,
    slack: u64,
    room: u32,
    /// The move of another caller before a call of this number.
    change: Option<(u32, Change)>,
    /// Where the board begins, if not at the Berger table.
    beginning: Option<Beginning>,
    /// The calls of door and gate, and how many proposals the worker made, and how many of them were accepted and refused.
    asked: &'static str,
}

/// Four teams on a board with ample room.
const OF_FOUR: Scene = Scene {
    seed: 2,
    worker: 0,
    teams: 4,
    steps: 6,
    slack: 4,
    room: 1024,
    change: None,
    beginning: None,
    asked: "",
};

const EXCHANGE: Change = Change::Shift(Move::Rounds { k: 0, l: 1 });

const OPENING: Game = Game {
    round: 0,
    home: 0,
    away: 3,
};

/// `asks 5 0 6 16 100 1024`.
const ALONE: Scene = Scene {
    seed: 5,
    teams: 6,
    steps: 16,
    slack: 100,
    asked: "look 0\n\
        front 0\nenter 0 0\n\
        propose 0 Homes { i: 5, j: 2 } claim Some(96) slack 100 answer Done 1\nleft 0 0\n\
        front 1\nenter 0 1\n\
        propose 1 Teams { i: 5, j: 0 } claim Some(96) slack 87 answer Done 2\nleft 0 1\n\
        front 2\nenter 0 2\n\
        propose 2 Teams { i: 1, j: 3 } claim Some(94) slack 75 answer Done 3\nleft 0 2\n\
        front 3\nenter 0 3\n\
        propose 3 PartTeams { i: 1, j: 0, k: 4 } claim Some(94) slack 62 answer Done 4\nleft 0 3\n\
        front 4\nenter 0 4\n\
        propose 4 Homes { i: 3, j: 1 } claim Some(94) slack 43 answer Done 5\nleft 0 4\n\
        front 5\nenter 0 5\n\
        propose 5 PartRounds { i: 4, k: 4, l: 9 } claim Some(92) slack 31 answer Done 6\nleft 0 5\n\
        front 6\nenter 0 6\n\
        propose 6 Rounds { k: 9, l: 8 } claim Some(90) slack 25 answer Done 7\nleft 0 6\n\
        report 7 7 0\n",
    ..OF_FOUR
};

/// `asks 2 0 4 6 4 1024 4 Rounds 0 1`: it looks before it proposes where the board has gone on.
const GONE_ON: Scene = Scene {
    change: Some((4, EXCHANGE)),
    asked: "look 0\n\
        front 0\nenter 0 0\n\
        propose 0 Homes { i: 3, j: 1 } claim Some(24) slack 4 answer Done 1\nleft 0 0\n\
        front 2\n\
        look 2\n\
        front 2\nenter 0 1\n\
        propose 2 PartTeams { i: 1, j: 2, k: 5 } claim Some(26) slack 2 answer Done 3\nleft 0 1\n\
        report 2 2 0\n",
    ..OF_FOUR
};

/// `asks 2 0 4 4 4 1024 3 Rounds 0 1`: it looks where it is granted at a later version.
const GRANTED_LATER: Scene = Scene {
    steps: 4,
    change: Some((3, EXCHANGE)),
    asked: "look 0\n\
        front 0\nenter 0 0\n\
        propose 0 Homes { i: 3, j: 1 } claim Some(24) slack 4 answer Done 2\nleft 0 0\n\
        look 2\n\
        front 2\nenter 0 1\n\
        propose 2 Homes { i: 1, j: 0 } claim Some(26) slack 2 answer Done 3\nleft 0 1\n\
        front 3\nenter 0 2\n\
        propose 3 PartTeams { i: 1, j: 2, k: 5 } claim Some(26) slack 1 answer Done 4\nleft 0 2\n\
        report 3 3 0\n",
    ..OF_FOUR
};

/// `asks 1 3 4 6 0 1024 3 Rounds 0 1`: it withdraws and looks where it is refused at a later version.
const REFUSED_LATER: Scene = Scene {
    seed: 1,
    worker: 3,
    slack: 0,
    change: Some((3, EXCHANGE)),
    asked: "look 0\n\
        front 0\nenter 3 0\n\
        propose 0 PartTeams { i: 1, j: 0, k: 0 } claim Some(26) slack 0 answer Meet 1\nleft 3 0\n\
        look 1\n\
        front 1\nenter 3 1\n\
        propose 1 Homes { i: 2, j: 3 } claim Some(26) slack 0 answer Done 2\nleft 3 1\n\
        front 2\nenter 3 2\n\
        propose 2 Rounds { k: 3, l: 1 } claim Some(26) slack 0 answer Done 3\nleft 3 2\n\
        report 3 2 1\n",
    ..OF_FOUR
};

/// `asks 2 0 4 10 10 1024 1 Pin 0 3`: it withdraws and goes on where a game is pinned.
const GAME_PINNED: Scene = Scene {
    steps: 10,
    slack: 10,
    change: Some((1, Change::Pin(OPENING))),
    asked: "look 1\n\
        front 1\nenter 0 0\n\
        propose 1 Homes { i: 3, j: 1 } claim Some(24) slack 10 answer Done 2\nleft 0 0\n\
        front 2\nenter 0 1\n\
        propose 2 Rounds { k: 2, l: 1 } claim Some(28) slack 9 answer Done 3\nleft 0 1\n\
        front 3\nenter 0 2\n\
        propose 3 Homes { i: 1, j: 0 } claim Some(28) slack 8 answer Done 4\nleft 0 2\n\
        front 4\nenter 0 3\n\
        propose 4 PartTeams { i: 1, j: 2, k: 5 } claim Some(28) slack 7 answer Done 5\nleft 0 3\n\
        front 5\nenter 0 4\n\
        propose 5 Rounds { k: 5, l: 4 } claim Some(28) slack 6 answer Done 6\nleft 0 4\n\
        front 6\nenter 0 5\n\
        propose 6 PartRounds { i: 2, k: 3, l: 5 } claim Some(26) slack 5 answer Done 7\nleft 0 5\n\
        front 7\nenter 0 6\n\
        propose 7 Teams { i: 1, j: 0 } claim Some(30) slack 4 answer Pinned 7\nleft 0 6\n\
        front 7\nenter 0 7\n\
        propose 7 Homes { i: 0, j: 3 } claim Some(24) slack 2 answer Pinned 7\nleft 0 7\n\
        front 7\nenter 0 8\n\
        propose 7 Teams { i: 2, j: 1 } claim Some(26) slack 1 answer Done 8\nleft 0 8\n\
        report 9 7 2\n",
    ..OF_FOUR
};

/// `asks 2 0 4 20 4 2`: it stops where the board is full.
const FULL: Scene = Scene {
    steps: 20,
    room: 2,
    asked: "look 0\n\
        front 0\nenter 0 0\n\
        propose 0 Homes { i: 3, j: 1 } claim Some(24) slack 4 answer Done 1\nleft 0 0\n\
        front 1\nenter 0 1\n\
        propose 1 Homes { i: 1, j: 0 } claim Some(24) slack 3 answer Done 2\nleft 0 1\n\
        front 2\nenter 0 2\n\
        propose 2 PartTeams { i: 1, j: 2, k: 5 } claim Some(24) slack 3 answer Full 2\nleft 0 2\n\
        report 3 2 1\n",
    ..OF_FOUR
};

/// `asks 4 0 6 24 100 1024` with the variables BEGIN `Homes 1 3`, KEEP `0 5` and NEAR 1. Of all that pass the slack, the moves that
/// kept games speak against are left out.
const GAMES_KEPT: Scene = Scene {
    seed: 4,
    teams: 6,
    steps: 24,
    slack: 100,
    beginning: Some(Beginning {
        mv: Move::Homes { i: 1, j: 3 },
        kept: &[0, 5],
        near: 1,
    }),
    asked: "look 0\n\
        front 0\nenter 0 0\n\
        propose 0 Homes { i: 5, j: 3 } claim Some(98) slack 79 answer Done 1\nleft 0 0\n\
        front 1\nenter 0 1\n\
        propose 1 Homes { i: 3, j: 5 } claim Some(100) slack 50 answer Done 2\nleft 0 1\n\
        front 2\nenter 0 2\n\
        propose 2 PartRounds { i: 1, k: 3, l: 4 } claim Some(102) slack 25 answer Done 3\nleft 0 2\n\
        front 3\nenter 0 3\n\
        propose 3 Homes { i: 2, j: 1 } claim Some(99) slack 20 answer Done 4\nleft 0 3\n\
        front 4\nenter 0 4\n\
        propose 4 PartRounds { i: 1, k: 8, l: 7 } claim Some(96) slack 16 answer Done 5\nleft 0 4\n\
        front 5\nenter 0 5\n\
        propose 5 Homes { i: 1, j: 3 } claim Some(101) slack 8 answer Done 6\nleft 0 5\n\
        report 6 6 0\n",
    ..OF_FOUR
};

/// `asks 9 0 4 12 100 1024 1 Unpin 0 3` with the variables BEGIN `Rounds 4 5`, KEEP `0` and NEAR 1. The move Homes 0 3, which passes the
/// slack, is left out though its game was unpinned: the league keeps it.
const KEPT_GAME_UNPINNED: Scene = Scene {
    seed: 9,
    steps: 12,
    slack: 100,
    change: Some((1, Change::Unpin(OPENING))),
    beginning: Some(Beginning {
        mv: Move::Rounds { k: 4, l: 5 },
        kept: &[0],
        near: 1,
    }),
    asked: "look 1\n\
        front 1\nenter 0 0\n\
        propose 1 Homes { i: 0, j: 1 } claim Some(26) slack 50 answer Done 2\nleft 0 0\n\
        front 2\nenter 0 1\n\
        propose 2 Rounds { k: 2, l: 1 } claim Some(29) slack 33 answer Done 3\nleft 0 1\n\
        front 3\nenter 0 2\n\
        propose 3 Rounds { k: 5, l: 4 } claim Some(34) slack 16 answer Done 4\nleft 0 2\n\
        report 3 3 0\n",
    ..OF_FOUR
};

/// `asks 9 0 4 12 100 1024` with the variables BEGIN `Rounds 4 5` and KEEP `0 1 2 3 4 5`.
const ALL_KEPT: Scene = Scene {
    seed: 9,
    steps: 12,
    slack: 100,
    beginning: Some(Beginning {
        mv: Move::Rounds { k: 4, l: 5 },
        kept: &[0, 1, 2, 3, 4, 5],
        near: 0,
    }),
    asked: "look 0\n\
        report 0 0 0\n",
    ..OF_FOUR
};

impl Scene {
    fn plan(&self) -> WorkerPlan {
        WorkerPlan {
            worker: self.worker,
            seed: self.seed,
            steps: self.steps,
            slack: self.slack,
        }
    }

    fn board(&self, rt: &impl Abort, alloc: Global) -> Board {
        let mut league = circle(rt, alloc, self.teams);
        if let Some(beginning) = self.beginning {
            begin(rt, alloc, &mut league, beginning);
        }
        new_board(rt, alloc, league, self.room)
    }
}

/// Has the worker of a scene search on a board. What it asks goes to the log.
fn search_on<R: Wait + Abort>(
    rt: &R,
    alloc: Global,
    scene: &Scene,
    board: Board,
    log: &Mutex<String>,
) -> Report {
    let league = board.league().duplicate(alloc).expect(rt, "a league");
    let mut copy = board.schedule().duplicate(alloc).expect(rt, "a copy");
    let mut door = Recorder {
        board,
        log,
        dones: 0,
        calls: 0,
        change: scene.change,
    };
    let gate = Passed { log };
    worker(rt, &mut door, &gate, &league, scene.plan(), &mut copy)
}

fn check_scene<R: Wait + Abort>(rt: &R, alloc: Global, scene: &Scene) {
    let log = Mutex::new(String::new(alloc));
    let Report {
        made,
        accepted,
        refused,
    } = search_on(rt, alloc, scene, scene.board(rt, alloc), &log);
    let mut asked = log.into_inner();
    let _ = writeln!(asked, "report {made} {accepted} {refused}");
    check_same(rt, &asked.as_str(), &scene.asked);
}

const SCENES: [Scene; 6] = [
    ALONE,
    GONE_ON,
    GRANTED_LATER,
    REFUSED_LATER,
    GAME_PINNED,
    FULL,
];

#[test]
fn a_worker_asks_step_by_step(rt: HostRuntime) {
    for scene in &SCENES {
        check_scene(&rt, rt.alloc(), scene);
    }
}

#[test]
fn leaves_out_moves_of_games_that_the_league_keeps(rt: HostRuntime) {
    for scene in &[GAMES_KEPT, KEPT_GAME_UNPINNED, ALL_KEPT] {
        check_scene(&rt, rt.alloc(), scene);
    }
}
