// Logs that come by radio, in scraps.
ghost use Rattle.std.specs.Prelude.{◌≡◌, length};
ghost use Rattle.course.specs.Laid.{laid};
ghost use Rattle.told.specs.Told.{heard_as, end_as};
ghost use Rattle.box_radio.specs.Radios.{box_taken, took_in, end_in};

use told::Answer;

// A scrap of a log: a verdict byte for each event whose line it ends.
pub fn jug_take(words: &mut [u64; 384], scrap: &[u8], verdicts: &mut [u8]) -> Answer
    ensures answer { result ≡ heard_as (took_in words.old scrap.now (length verdicts.old)).taken.answer }
    ensures words { words.new ≡ box_taken words.old (took_in words.old scrap.now (length verdicts.old)).taken }
    ensures verdicts { verdicts.new ≡ laid (took_in words.old scrap.now (length verdicts.old)).verdicts verdicts.old }
{
    box_radio::take(words, scrap, verdicts).into()
}

// Whether the log may end where it stands.
pub fn jug_end(words: &[u64; 384]) -> Answer
    ensures { result ≡ end_as (end_in words.now) }
{
    box_radio::finish(words).into()
}
