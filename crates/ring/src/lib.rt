// The running counters of a FIFO, the bytes of its window that they point to, and what a read of a data register gives (`Taken`).
// Every function takes any value and asks nothing of its caller. The definitions that the contracts cite are in specs/.
#![tactic(auto)]

ghost use Rattle.std.specs.Prelude.{◌≡◌, ◌≤◌};
ghost use Rattle.window.specs.Window.{size_of, start_of};
ghost use Rattle.ring.specs.Ring.{level, free, next, place, byte_at, store, StoreAll};

use window::{Memory, Window};

// What a read of a data register gives: what was read from as it is after it, the byte, and whether it was taken by this read.
#[derive(Clone, Copy)]
pub struct Taken<S> {
    pub next: S,
    pub value: u8,
    pub taken: bool,
}

// How many bytes stand from read up to write.
pub fn level(read: u8, write: u8) -> u8
    ensures { result ≡ level read write }
{
    write.wrapping_sub(read)
}

// The size less the level, and 0 where the level is above the size.
pub fn free(size: u8, read: u8, write: u8) -> u8
    ensures { result ≡ free size read write }
{
    size.saturating_sub(level(read, write))
}

// The counter after a counter: 0 after 255.
pub fn next(counter: u8) -> u8
    ensures { result ≡ next counter }
{
    counter.wrapping_add(1)
}

// The place of a counter's byte.
fn place(window: Window, counter: u8) -> usize
    ensures { (result ≡ place (start_of window.kind window.number) (size_of window.kind) counter) × (result ≤ 391) }
{
    window.start() + usize::from(counter % window.size())
}

// The byte at a counter's place.
pub fn load(memory: &Memory, window: Window, counter: u8) -> u8
    ensures { result ≡ byte_at (start_of window.kind window.number) (size_of window.kind) memory.now counter }
{
    memory[place(window, counter)]
}

// Stores one byte at a counter's place.
pub fn store(memory: &mut Memory, window: Window, counter: u8, b: u8)
    ensures { memory.new ≡ store (start_of window.kind window.number) (size_of window.kind) counter b memory.old }
{
    memory[place(window, counter)] = b;
}

// Stores a stretch of bytes from a counter's place on, and gives the counter after them.
pub fn store_all(memory: &mut Memory, window: Window, mut counter: u8, s: &[u8]) -> u8
    ensures { StoreAll window counter s.now memory.old result memory.new }
{
    for &b in s {
        store(memory, window, counter, b);
        counter = next(counter);
    }
    counter
}
