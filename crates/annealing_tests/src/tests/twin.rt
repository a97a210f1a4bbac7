//! Legs made a second time, step by step.

ghost use Rattle.std.specs.Prelude.{◌≤◌};
ghost use Rattle.costs.specs.Costs.{AreWeights};

use crate::tests::chains::{Asked, board_of};
use crate::tests::leagues::Sample;
use costs::Weights;
use draws::{Draws, draw_among, each_round};
use fixture_board::{Board, Trial};
use policy::MoveSet;
use rand_core::Rng;
use rand_pcg::Lcg64Xsh32;
use std::alloc::Global;
use std::process::Abort;

/// 65536 times -ln((i + 1/2) / 256), to the nearest whole number, as Python gives it.
static QUANTILES: [u32; 256] = [
    408835, 336836, 303359, 281308, 264838, 251686, 240738, 231360, 223157, 215868, 209309, 203347,
    197883, 192839, 188156, 183785, 179688, 175832, 172190, 168740, 165462, 162341, 159361, 156512,
    153781, 151159, 148638, 146210, 143869, 141609, 139425, 137310, 135262, 133276, 131348, 129476,
    127655, 125884, 124159, 122479, 120840, 119242, 117681, 116157, 114668, 113211, 111786, 110392,
    109027, 107689, 106378, 105093, 103833, 102596, 101383, 100191, 99021, 97871, 96741, 95630,
    94538, 93464, 92406, 91366, 90342, 89334, 88341, 87363, 86399, 85449, 84513, 83590, 82680,
    81782, 80896, 80022, 79160, 78309, 77469, 76639, 75820, 75011, 74212, 73422, 72642, 71871,
    71109, 70355, 69611, 68874, 68146, 67426, 66714, 66009, 65312, 64622, 63939, 63264, 62595,
    61933, 61277, 60629, 59986, 59350, 58720, 58095, 57477, 56865, 56258, 55657, 55061, 54470,
    53885, 53305, 52730, 52161, 51596, 51035, 50480, 49929, 49383, 48842, 48304, 47772, 47243,
    46719, 46199, 45683, 45171, 44663, 44158, 43658, 43162, 42669, 42180, 41694, 41212, 40734,
    40259, 39788, 39320, 38855, 38393, 37935, 37480, 37028, 36579, 36133, 35690, 35251, 34814,
    34380, 33948, 33520, 33095, 32672, 32252, 31834, 31419, 31007, 30598, 30191, 29786, 29384,
    28984, 28587, 28192, 27800, 27410, 27022, 26637, 26253, 25872, 25493, 25117, 24742, 24370,
    24000, 23632, 23265, 22901, 22539, 22179, 21821, 21465, 21111, 20758, 20408, 20059, 19712,
    19368, 19024, 18683, 18344, 18006, 17670, 17335, 17003, 16672, 16342, 16015, 15689, 15364,
    15041, 14720, 14400, 14082, 13766, 13451, 13137, 12825, 12514, 12205, 11897, 11591, 11286,
    10983, 10681, 10380, 10081, 9783, 9487, 9191, 8898, 8605, 8314, 8024, 7735, 7448, 7161, 6876,
    6593, 6310, 6029, 5749, 5470, 5192, 4916, 4640, 4366, 4093, 3821, 3550, 3281, 3012, 2745, 2478,
    2213, 1949, 1685, 1423, 1162, 902, 643, 385, 128,
];

/// A leg's board, its weight in millionths of the unit, and what it draws with.
#[derive(Drop)]
pub(crate) struct Twin {
    pub(crate) board: Board,
    pub(crate) weight: u128,
    /// What a breach of a rule weighs at least, if that is apart.
    rule: Option<u64>,
    moves: MoveSet,
    generator: Lcg64Xsh32,
    /// The unit, as a fraction.
    unit: (u128, u128),
}

/// A twin at the start of a leg in a circle of eight teams or in four places that are all 1 apart: the unit is the mean distance, the sum of the
/// distances by their number.
pub(crate) fn twin_of(rt: &impl Abort, alloc: Global, asked: Asked) -> Twin {
    let unit = match asked.sample {
        // 8 (1 + 2 + 3 + 4 + 3 + 2 + 1) and 8 * 7
        Sample::Circle => (128, 56),
        _ => (12, 12),
    };
    Twin {
        board: board_of(rt, alloc, asked.sample, asked.room),
        weight: 2_000_000,
        rule: asked.rule,
        moves: asked.leg.moves,
        generator: Lcg64Xsh32::new(asked.seed, asked.stream),
        unit,
    }
}

impl Twin {
    /// Takes so many steps at a temperature in millionths of the unit, and lets the weight follow.
    pub(crate) fn take_block(&mut self, heat: u128, steps: u32) {
        let scaled = heat.saturating_mul(self.unit.0).saturating_mul(1024);
        let temperature = scaled / self.millionths();
        let weights = self.weights();
        let mut feasible: u32 = 0;
        for _ in 0..steps {
            feasible = feasible.saturating_add(u32::from(self.is_feasible()));
            self.step(temperature, weights);
        }
        self.adapt(feasible, steps);
    }

    /// How many millionths a unit's denominator has.
    fn millionths(&self) -> u128
        ensures { 1 ≤ result }
    {
        self.unit.1.saturating_mul(1_000_000).max(1)
    }

    /// A weight in whole numbers.
    fn whole(&self, weight: u128) -> u32
        ensures { (1 ≤ result) × (result ≤ 1000000) }
    {
        let scaled = weight.saturating_mul(self.unit.0) / self.millionths();
        scaled.clamp(1, 1_000_000) as u32
    }

    fn weights(&self) -> Weights
        ensures { AreWeights result }
    {
        let breach = self.whole(self.weight);
        let rule = match self.rule {
            Some(rule) => self.whole(u128::from(rule)),
            None => breach,
        };
        Weights {
            breach,
            rule: rule.saturating_sub(breach),
        }
    }

    /// Whether no limit is broken, or none but of rules where these weigh apart.
    fn is_feasible(&self) -> bool {
        let cost = self.board.cost();
        cost.hard == 0 || (self.rule.is_some() && cost.hard == cost.of_rules)
    }

    /// Goes back to the start of the league.
    pub(crate) fn begin_anew(&mut self, rt: &impl Abort, alloc: Global) {
        self.board = self.board.anew(alloc).expect(rt, "a board");
    }

    /// Draws a threshold and then a move, and tries the move.
    fn step(&mut self, temperature: u128, weights: Weights)
        requires { AreWeights weights }
    {
        let quantile = QUANTILES[(self.generator.next_u32() >> 24) as usize];
        let rise = temperature.saturating_mul(u128::from(quantile)) / 67_108_864;
        let rise = u64::try_from(rise).unwrap_or(u64::MAX);
        let teams = self.board.league().teams();
        let draws = Draws {
            teams,
            kinds: self.moves.kinds(),
            rounds: each_round(teams),
        };
        let mv = draw_among(&mut self.generator, draws);
        self.board.try_move(0, Trial { mv, weights, rise });
    }

    /// A fiftieth more, and two fiftieths of the feasible share less.
    fn adapt(&mut self, feasible: u32, steps: u32) {
        let steps = u128::from(steps).saturating_mul(25).max(1);
        let falls = self.weight.saturating_mul(u128::from(feasible)) / steps;
        let grown = self.weight.saturating_add(self.weight / 50);
        self.weight = grown.saturating_sub(falls).clamp(300_000, 100_000_000);
    }
}
