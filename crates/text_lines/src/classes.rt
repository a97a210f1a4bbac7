//! The names of the classes of rules.

ghost use Rattle.std.specs.Prelude.{◌≡◌};
ghost use Rattle.text_lines.specs.Classes.{class_name};

use league::RuleBody;

/// The name of a rule's class, as in a league.
pub fn class_name(body: &RuleBody) -> &'static str
    ensures { result.now ≡ class_name body.now }
{
    match body {
        RuleBody::Ca1 { .. } => "CA1",
        RuleBody::Ca2 { .. } => "CA2",
        RuleBody::Ca3 { .. } => "CA3",
        RuleBody::Ca4 { .. } => "CA4",
        RuleBody::Ga1 { .. } => "GA1",
        RuleBody::Br1 { .. } => "BR1",
        RuleBody::Br2 { .. } => "BR2",
        RuleBody::Se1 { .. } => "SE1",
        RuleBody::Fa2 { .. } => "FA2",
    }
}
