// Runs a script of calls of the driver and events for the chip: reads commands from standard input and writes a line for each.
// docs/DRIVE.md has the form. Thin: what is read and done, and the text of an event, are proved in the libraries; the words for the calls are
// not, and input and output are std's. A read or a write that fails ends it with an error.
#![tactic(auto)]

use answer::Answer;
use commands::{Command, Unreadable};
use driver::{Did, Driven, Driver};
use lines::LONGEST;
use refusal::Refusal;
use state::Chip;
use std::io;
use std::io::Write;
use window::Memory;

// The chip with its memory, and the driver.
#[derive(Drop)]
struct Device {
    chip: Chip,
    memory: Memory,
    driver: Driver,
}

// One byte more than the longest input; a longer one is a first command that cannot be read.
fn main(rt: HostRuntime) -> io::Result<()> {
    let mut input = [0u8; 65537];
    let n = console::read_full(&mut rt.stdin(), &mut input)?;
    let mut to = rt.stdout();
    if 65536 < n {
        return unreadable(&mut to, 0);
    }
    obey_all(&mut to, &input[..n])
}

// One command after another, from the reset state and a driver that holds nothing.
fn obey_all<W: Write>(to: &mut W, s: &[u8]) -> io::Result<()> {
    let mut device = Device::reset();
    let mut place = 0;
    for number in 0..u64::MAX {
        match commands::read(s, place) {
            Ok(Some((command, span))) => {
                device.obey(to, command, trace::payload(s, span))?;
                place = span.next;
            }
            Ok(None) => break,
            Err(Unreadable) => return unreadable(to, number),
        }
    }
    Ok(())
}

fn unreadable<W: Write>(to: &mut W, number: u64) -> io::Result<()> {
    writeln!(to, "unreadable command {number}")
}

impl Device {
    fn reset() -> Device {
        Device {
            chip: Chip::reset(),
            memory: [0; 392],
            driver: Driver::default(),
        }
    }

    // One command, with its bytes, and its line.
    fn obey<W: Write>(&mut self, to: &mut W, command: Command, s: &[u8]) -> io::Result<()> {
        let driven = match command {
            Command::Start(a, e, f) => driver::start(&mut self.memory, a, e, f),
            Command::Offer => driver::offer(self.chip, self.driver, &mut self.memory, s),
            Command::Send => driver::send_service(self.chip, self.driver, &mut self.memory),
            Command::Receive => return self.receive(to),
            Command::Event => return self.event(to, s),
        };
        told(to, self.after(driven))
    }

    // Takes the states after a call, and tells what it did.
    fn after(&mut self, driven: Driven) -> Result<Did, Refusal> {
        self.chip = driven.chip;
        self.driver = driven.driver;
        driven.did
    }

    // A receive service has its own word for nothing, and a packet that it took in hex.
    fn receive<W: Write>(&mut self, to: &mut W) -> io::Result<()> {
        let r = receiving::receive_service(self.chip, self.driver, &mut self.memory);
        match self.after(r.driven) {
            Ok(Did::Nothing) => writeln!(to, "none"),
            Ok(Did::Taken) => taken(to, r.packet.get(..r.count).unwrap_or(&[])),
            did => told(to, did),
        }
    }

    // The answer and the interrupt line after one record of a trace, without the number of a run's line.
    fn event<W: Write>(&mut self, to: &mut W, s: &[u8]) -> io::Result<()> {
        let mut line = [0u8; LONGEST];
        let n = match self.step(s) {
            Ok((answer, raised)) => lines::line(&mut line, 0, 0, answer, &self.memory, raised),
            Err(why) => lines::refusal(&mut line, 0, 0, why, 0),
        };
        // behind the number, which is 0, and a space
        to.write_all(line.get(2..n).unwrap_or(&[]))
    }

    // One record of a trace, given to the chip; no bytes at all are a record that is cut.
    fn step(&mut self, s: &[u8]) -> Result<(Answer, bool), Refusal> {
        let (event, span) = reader::read(s, 0)
            .map_err(|refused| refused.why)?
            .ok_or(Refusal::Cut)?;
        let r = chip::step(self.chip, &mut self.memory, event, reader::payload(s, span));
        self.chip = r.chip;
        Ok((r.reply?, r.line))
    }
}

// What a call did, in a word that goes out with its line's end in one write, or why it is refused.
fn told<W: Write>(to: &mut W, did: Result<Did, Refusal>) -> io::Result<()> {
    let line = match did {
        Ok(Did::Done) => "ok\n",
        Ok(Did::Nothing) => "nothing\n",
        Ok(Did::Delivered) => "delivered\n",
        Ok(Did::Resent) => "resent\n",
        Ok(Did::Taken) => "taken\n",
        Ok(Did::Flushed) => "flushed\n",
        Ok(Did::Repeat) => "repeat\n",
        Err(why) => return writeln!(to, "refuse {}", why.number()),
    };
    to.write_all(line.as_bytes())
}

// A packet's bytes in hex, `-` for none.
fn taken<W: Write>(to: &mut W, packet: &[u8]) -> io::Result<()> {
    write!(to, "taken ")?;
    if packet.is_empty() {
        write!(to, "-")?;
    }
    for b in packet {
        let mut pair = [0u8; 2];
        digits::hex(&mut pair, 0, 0, *b);
        to.write_all(&pair)?;
    }
    writeln!(to)
}
