// The sent commands, lent as one run and walked once: the walk of the timeout check for a host that keeps them itself.
// A host lends numbers alone. A flag is a byte, and any but 0 is true.
#![tactic(auto)]

ghost use Rattle.std.specs.Prelude.{◌≡◌};
ghost use Rattle.timeouts_lent.specs.Walking.{read_of, written_of, turn_of, Walks};

use overdue::step;
use overdue::step::{Sent, Walk};
use record::groups::Limits;

// A sent command, and the mark of what became of it.
#[repr(C)]
#[derive(Clone, Copy)]
pub struct Awaiting {
    pub sent: u32,
    pub timeout: u32,
    pub attempts: u16,
    pub length: u16,
    pub packet: u8,
    pub mark: u8,
}

// The numbers that the walk carries, with its three flags.
#[repr(C)]
#[derive(Clone, Copy)]
pub struct Numbers {
    pub earliest: u32,
    pub next: u32,
    pub lost: u32,
    pub transit: u32,
    pub kept: u8,
    pub back: u8,
    pub over: u8,
}

#[derive(Clone, Copy)]
pub struct Turned {
    pub walk: Walk,
    pub awaiting: Awaiting,
}

fn read(n: Numbers) -> Walk
    ensures { result ≡ read_of n }
{
    Walk {
        earliest: n.earliest,
        next: n.next,
        lost: n.lost,
        transit: n.transit,
        kept: n.kept != 0,
        back: n.back != 0,
        over: n.over != 0,
    }
}

fn write(w: Walk) -> Numbers
    ensures { result ≡ written_of w }
{
    Numbers {
        earliest: w.earliest,
        next: w.next,
        lost: w.lost,
        transit: w.transit,
        kept: w.kept as u8,
        back: w.back as u8,
        over: w.over as u8,
    }
}

// The command's timeout and its mark change, and nothing else of it.
fn turn(limits: Limits, clock: u32, walk: Walk, a: Awaiting) -> Turned
    ensures { result ≡ turn_of limits clock walk a }
{
    let o = Sent {
        sent: a.sent,
        timeout: a.timeout,
        attempts: a.attempts,
        length: a.length,
        packet: a.packet != 0,
    };
    let r = step::step_by(limits, clock, walk, o);
    let w = r.walk;
    let mut after = a;
    after.timeout = r.timeout;
    after.mark = r.mark;
    Turned {
        walk: w,
        awaiting: after,
    }
}

// Each once, oldest first; the answer is whether the numbers say that it was given up.
#[unsafe(no_mangle)]
pub extern "C" fn lyn_walk(
    sent: &mut [Awaiting],
    limits: Limits,
    clock: u32,
    walk: Numbers,
) -> Numbers
    ensures { Walks limits clock walk sent.old result sent.new }
{
    let mut w = read(walk);
    for a in sent.iter_mut() {
        let t = turn(limits, clock, w, *a);
        *a = t.awaiting;
        w = t.walk;
    }
    write(w)
}
