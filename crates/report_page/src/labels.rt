//! The names that a league gives itself, its teams in short, and its rounds.

ghost use Rattle.std.specs.Prelude.{◌≡◌};
ghost use Rattle.report_page.specs.Labels.{has_round_texts, has_short_names, has_title, round_text_of, short_name_of, title_of};

use league::League;

pub(crate) fn has_title(league: &League) -> bool
    ensures { result ≡ has_title league.now }
{
    league.title().is_some()
}

/// The league's name, or nothing.
pub(crate) fn title(league: &League) -> &[u8]
    ensures { result.now ≡ title_of league.now }
{
    match league.title() {
        Some(title) => title.as_bytes(),
        None => b"",
    }
}

/// Whether the league has a short name for each team.
pub(crate) fn has_short_names(league: &League) -> bool
    ensures { result ≡ has_short_names league.now }
{
    league.short_name(0).is_some()
}

/// A team's short name, or nothing.
pub(crate) fn short_name(league: &League, team: u8) -> &[u8]
    ensures { result.now ≡ short_name_of league.now team }
{
    match league.short_name(team) {
        Some(name) => name.as_bytes(),
        None => b"",
    }
}

/// Whether the league has a text for each round.
pub(crate) fn has_round_texts(league: &League) -> bool
    ensures { result ≡ has_round_texts league.now }
{
    league.round_text(0).is_some()
}

/// A round's name, or nothing.
pub(crate) fn round_text(league: &League, round: u8) -> &[u8]
    ensures { result.now ≡ round_text_of league.now round }
{
    match league.round_text(round) {
        Some(text) => text.as_bytes(),
        None => b"",
    }
}
