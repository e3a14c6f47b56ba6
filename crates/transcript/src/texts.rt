// What is read of plant.txt and rule.txt, each a text, or not there: `ok` says which.
ghost use Rattle.std.specs.Prelude.{◌≡◌};
ghost use Rattle.opened.specs.Lent.{Lent};
ghost use Rattle.transcript.specs.Said.{file_of, plant_read, rule_given, log_outcome};

use answers::{Kind, Refusal};
use plant::{Plant, Table, TableRead};
use rule_text::RuleRead;

// A text that is not there is 14, here and below.
#[tactic(auto, using(opened::specs::Lent::lent))]
pub fn read_plant(ok: bool, text: &[u8]) -> TableRead
    ensures value { result ≡ plant_read (file_of ok text.now) }
    ensures parts { Lent result.table }
{
    if !ok {
        return TableRead {
            outcome: Err(Refusal::at(Kind::File, 0)),
            table: Table::EMPTY,
        };
    }
    plant::read_table(text)
}

// The one final LF that rule.txt may have is no byte of the rule.
pub fn read_rule(
    plant: Plant,
    fair: &[u64],
    label: &[u16],
    next: &[u64],
    ok: bool,
    text: &[u8],
) -> RuleRead
    ensures { result ≡ rule_given plant fair.now label.now next.now (file_of ok text.now) }
{
    if !ok {
        return RuleRead::refused(Kind::File, 0);
    }
    let asked = text.strip_suffix(b"\n").unwrap_or(text);
    rule::read_rule(plant, fair, label, next, asked)
}

// The form alone: events are judged one by one, behind the lamps before them.
pub fn check_log(ok: bool, text: &[u8], props: usize) -> Result<(), Refusal>
    ensures { result ≡ log_outcome props (file_of ok text.now) }
{
    if !ok {
        return Err(Refusal::at(Kind::File, 0));
    }
    event_log::read_log(text, props).outcome
}
