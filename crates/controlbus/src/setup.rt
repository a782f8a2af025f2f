// Endpoint 0 at a SETUP token: its data, or another bus event that comes instead of it.
ghost use Rattle.std.specs.Prelude.{◌≡◌};
ghost use Rattle.controlbus.specs.Setup.{refused, judge_setup, TakenSetup, ReceivedSetup, setup_dropped};

use control::Control;
use verdict::Judged;
use window::Memory;

// Data that no SETUP takes, or IGN_SETUP.
#[tactic(auto, unfolding(crate::specs::Setup::refused))]
fn refused(c: Control, pid: bool, sound: bool, count: usize) -> bool
    ensures { result ≡ refused pid sound count c }
{
    c.ignsetup || !sound || pid || count != 8
}

// What data after a SETUP token finds.
#[tactic(auto, unfolding(crate::specs::Setup::judge_setup, choice::specs::Choice::pick))]
pub fn judge_setup(c: Control, pid: bool, sound: bool, count: usize) -> Judged
    ensures { result ≡ judge_setup pid sound count c }
{
    if !refused(c, pid, sound, count) && (c.mark || c.fifo.rcount() == 0) {
        Judged::Ack
    } else {
        Judged::Silence
    }
}

// The state after that data. A repeat, found by the mark, is dropped and counts as taken.
#[tactic(auto, unfolding(crate::specs::Setup::after_setup, choice::specs::Choice::pick))]
pub fn received_setup(c: Control, memory: &mut Memory, pid: bool, sound: bool, s: &[u8]) -> Control
    ensures { ReceivedSetup pid sound c s.now memory.old result memory.new }
{
    if !judge_setup(c, pid, sound, s.len()).is_ack() {
        setup_dropped(c)
    } else if c.mark {
        c
    } else {
        taken(c, memory, s)
    }
}

// The state after a SETUP that is taken.
fn taken(mut c: Control, memory: &mut Memory, s: &[u8]) -> Control
    ensures { TakenSetup c s.now memory.old result memory.new }
{
    c.fifo = c.fifo.spend().fill(memory, s);
    c.last = true;
    c.setup = true;
    c.toggle = false;
    c.sends = false;
    c.receives = false;
    c.mark = true;
    c
}

// Another bus event came instead of the data.
pub fn setup_dropped(mut c: Control) -> Control
    ensures { result ≡ setup_dropped c }
{
    c.mark = false;
    c
}
