// What the programs read of a folder: its table and its rule. A file that is not there is 14.
ghost use Rattle.opened.specs.Lent.{Lent};

use files::File;
use plant::{Plant, TableRead};
use rule_text::RuleRead;
use std::rt::Files;
use transcript::texts;

// plant.txt, by 14, 3, 2.
pub fn read_plant<R: Files>(rt: &R, folder: &[u8]) -> TableRead
    ensures { Lent result.table }
{
    let mut text = [0u8; File::PLANT];
    let file = files::read_in(rt, folder, b"plant.txt", &mut text);
    texts::read_plant(file.ok, &text[..file.len])
}

// rule.txt, for a table that was accepted: by 14 and 4 to 8.
pub fn read_rule<R: Files>(
    rt: &R,
    folder: &[u8],
    plant: Plant,
    fair: &[u64],
    label: &[u16],
    next: &[u64],
) -> RuleRead {
    let mut text = [0u8; File::RULE];
    let file = files::read_in(rt, folder, b"rule.txt", &mut text);
    texts::read_rule(plant, fair, label, next, file.ok, &text[..file.len])
}
