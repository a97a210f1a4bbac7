//! The names that a league gives itself, its teams in short, and its rounds.

ghost use Rattle.std.specs.Prelude.{◌≡◌, ◌↔◌, IfOk, IsTrue, option_map, slice_get, string_bytes};
ghost use Rattle.league.specs.Labels.{label_data, no_labels};
ghost use Rattle.league.specs.Views.{texts};

use crate::text_lists::{are_same_texts, duplicate_texts};
use std::alloc::{AllocError, Global};
use std::marker::Model;

/// The texts that a league may have besides the names of its teams.
#[derive(Debug, Drop)]
pub struct Labels {
    title: Option<String>,
    /// One for each team, or none.
    short_names: Vec<String>,
    /// One for each round, or none.
    round_texts: Vec<String>,
}

impl Model for Labels {
    ghost use Rattle.std.specs.Prelude.{option_map, string_bytes};
    ghost use Rattle.league.specs.Labels.{LabelData, label_data};
    ghost use Rattle.league.specs.Views.{texts};

    ghost Value = { LabelData };

    ghost view = { λ l. label_data (option_map string_bytes l.title) (texts l.short_names.items) (texts l.round_texts.items) };
}

impl Labels {
    /// These: a short name for each team, or none, and a text for each round, or none.
    pub fn new(title: Option<String>, short_names: Vec<String>, round_texts: Vec<String>) -> Labels
        ensures { result ≡ label_data (option_map string_bytes title) (texts short_names.items) (texts round_texts.items) }
    {
        Labels {
            title,
            short_names,
            round_texts,
        }
    }

    /// None.
    pub(crate) fn none(alloc: Global) -> Labels
        ensures { result ≡ no_labels }
    {
        Labels {
            title: None,
            short_names: Vec::new(alloc),
            round_texts: Vec::new(alloc),
        }
    }

    pub(crate) fn title(&self) -> Option<&str>
        ensures { option_map (λ title. title.now) result ≡ self.now.title }
    {
        self.title.as_ref().map(|title| title.as_str())
    }

    pub(crate) fn short_name(&self, team: u8) -> Option<&str>
        ensures { option_map (λ name. name.now) result ≡ slice_get self.now.short_names team }
    {
        text_at(&self.short_names, team)
    }

    pub(crate) fn round_text(&self, round: u8) -> Option<&str>
        ensures { option_map (λ text. text.now) result ≡ slice_get self.now.round_texts round }
    {
        text_at(&self.round_texts, round)
    }

    pub(crate) fn is_same(&self, other: &Labels) -> bool
        ensures { IsTrue result ↔ (self.now ≡ other.now) }
    {
        are_same_titles(&self.title, &other.title)
            && are_same_texts(&self.short_names, &other.short_names)
            && are_same_texts(&self.round_texts, &other.round_texts)
    }

    pub(crate) fn duplicate(&self, alloc: Global) -> Result<Labels, AllocError>
        ensures { IfOk result (λ l. l ≡ self.now) }
    {
        let title = match &self.title {
            Some(title) => Some(String::from_str(alloc, title.as_str())?),
            None => None,
        };
        Ok(Labels {
            title,
            short_names: duplicate_texts(alloc, &self.short_names)?,
            round_texts: duplicate_texts(alloc, &self.round_texts)?,
        })
    }
}

fn are_same_titles(title: &Option<String>, other: &Option<String>) -> bool
    ensures { IsTrue result ↔ (option_map string_bytes title.now ≡ option_map string_bytes other.now) }
{
    match (title, other) {
        (Some(title), Some(other)) => title == other,
        (None, None) => true,
        _ => false,
    }
}

fn text_at(list: &[String], index: u8) -> Option<&str>
    ensures { option_map (λ text. text.now) result ≡ slice_get (texts list.now) index }
{
    list.get(usize::from(index)).map(|text| text.as_str())
}
