// The outgoing half of the damage test: its three lists, each walked over the marks of those before it.
ghost use Rattle.std.specs.Prelude.{◌≡◌, map, ◌+◌, ◌≤◌, length};
ghost use Rattle.lists.specs.Rows.{row_at};
ghost use Rattle.record.specs.Lists.{outgoing};
ghost use Rattle.damage.specs.CodeOutWalks.{slot_grade, grade_passes, enough};
ghost use Rattle.places.specs.Whole.{whole, record_length};
ghost use Rattle.gate.specs.CodeHalves.{Passes, out_side};

use crate::narrow;
use places::RECORD;
use record::OUTGOING;

fn enough(grade: u8, sent: bool) -> bool
    ensures { result ≡ enough grade sent }
{
    if sent {
        return 2 <= grade;
    }
    1 <= grade
}

// Not well is a list that is longer than its pool, or that names a slot that does not exist, is marked or is not good for it; a slot that is good is marked.
fn list_sound(words: &[u32; RECORD], at: usize, count: u32, sent: bool, marks: &mut [u8]) -> bool
    requires at_bound { at + 33 ≤ record_length }
    requires marks_len { length marks.old ≡ outgoing }
    ensures { Passes (grade_passes (map (slot_grade count) (whole words.now).outgoing) sent) outgoing marks.old (row_at at outgoing words.now) result marks.new }
{
    let n = narrow(words[at]);
    if OUTGOING < n {
        return false;
    }
    let from = at + 1;
    for cell in &words[from..from + n] {
        let s = narrow(*cell);
        if OUTGOING <= s {
            return false;
        }
        if marks[s] == 1 {
            return false;
        }
        let grade = pool::grade_at(&words[places::POOL..places::IN_POOL], s, count);
        if !enough(grade, sent) {
            return false;
        }
        marks[s] = 1;
    }
    true
}

// "a list is longer than its pool, names a slot that does not exist, or a slot stands twice", and each command.
pub(crate) fn out_side(words: &[u32; RECORD], count: u32) -> bool
    ensures { result ≡ out_side count (whole words.now) }
{
    let mut marks = [0u8; OUTGOING];
    if !list_sound(words, places::SENT, count, true, &mut marks) {
        return false;
    }
    if !list_sound(words, places::RELIABLE, count, false, &mut marks) {
        return false;
    }
    list_sound(words, places::OUTGOING, count, false, &mut marks)
}
