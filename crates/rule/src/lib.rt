// The calls on rules: a text is read, for the table beside it, and a value is printed.
#![tactic(auto)]

ghost use Rattle.std.specs.Prelude.{◌≡◌};
ghost use Rattle.rule_text.specs.Reading.{rule_read};
ghost use Rattle.rule.specs.Printing.{print_answer, print_buffer};

use answers::{Kind, Refusal};
use plant::Plant;
use rule_text::RuleRead;
use rule_value::is_valid;
use syntax::Rule;

// How many bytes were printed.
#[derive(Clone, Copy)]
pub struct Length {
    pub bytes: usize,
}

impl Length {
    // The most bytes of a printed rule: a buffer of so many has room for any.
    pub const MOST: usize = 109;

    // The constant, pinned by a contract.
    pub fn most() -> Self
        ensures { result.bytes ≡ 109 }
    {
        Length {
            bytes: Length::MOST,
        }
    }
}

// Reads a rule's text, for the table beside it: refusals 1, 2, 4, 5, 6, 7, 8 in this order.
pub fn read_rule(plant: Plant, fair: &[u64], label: &[u16], next: &[u64], text: &[u8]) -> RuleRead
    ensures { result ≡ rule_read plant fair.now label.now next.now text.now }
{
    match plant::check_table(plant, fair, label, next) {
        Err(refusal) => RuleRead::refused(refusal.kind, refusal.place),
        Ok(()) => rule_text::read_text(text, plant.props),
    }
}

// Prints a rule at the buffer's start: refusals 9 and 11. Other bytes stay, and all of them with a refusal.
pub fn print_rule(rule: Rule, buffer: &mut [u8]) -> Result<Length, Refusal>
    ensures answer { result ≡ print_answer rule buffer.old }
    ensures buffer { buffer.new ≡ print_buffer rule buffer.old }
{
    if !is_valid(rule, Rule::NAMES) {
        return Err(Refusal::at(Kind::Value, 0));
    }
    if buffer.len() < printer::room_of(rule) {
        return Err(Refusal::at(Kind::Room, 0));
    }
    let bytes = printer::put_rule(rule, buffer);
    Ok(Length { bytes })
}
