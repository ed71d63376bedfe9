// Settles an operating year: rights from ftr.bin, hours from standard input, the statement to standard output, and one sentence on a
// refusal to standard error. Here is the opening, reading and writing alone; settlement_run decides what is printed.

#![tactic(auto)]

ghost use Rattle.std.specs.Prelude.{◌≤◌, ◌≡◌, false, length, OnOk, IfSome};
ghost use Rattle.settlement_run.specs.Calls.{step_room, stepped_run};

use settlement_run::Run;
use std::io::{Read, Write};
use std::process::ExitCode;
use std::rt::Files;
use std::{fs, io};

// One byte more than the longest rights file, so that a longer one shows.
const RIGHTS_ROOM: usize = rights::FILE_BYTES + 1;

// The text that is gathered before it is written out.
const TEXT_ROOM: usize = 65536;

// The blocks that are read at once: a system call for each would be a good part of an hour without rights.
const BLOCKS_READ: usize = 16;

const INPUT_ROOM: usize = BLOCKS_READ * hour_block::HOUR_BYTES;

// The exit status where the statement could not be written out whole.
const NOT_WHOLE: u8 = 2;

// The bytes of the rights file, behind a word that keeps them at a multiple of 8: so no word of a record crosses a cache line, which would be
// two reads in the loop that takes the time.
#[repr(C)]
#[derive(Drop)]
struct RightsRoom {
    before: u64,
    bytes: [u8; RIGHTS_ROOM],
}

// The statement as far as it has come: where the run stands, and its text that is still to be written out.
#[derive(Drop)]
struct Statement {
    run: Run,
    text: [u8; TEXT_ROOM],
    ghost has_room: { step_room ≤ length text },
    ghost within: { run.end ≤ length text },
}

fn main(rt: HostRuntime) -> ExitCode {
    let mut room = RightsRoom {
        before: 0,
        bytes: [0u8; RIGHTS_ROOM],
    };
    let file = read_rights(&rt, &mut room.bytes);
    let rights = file.unwrap_or(&[]);
    let mut statement = Statement {
        run: settlement_run::opening(file.map(|bytes| bytes.len())),
        text: [0u8; TEXT_ROOM],
    };
    match statement.print(&mut rt.stdin(), &mut rt.stdout(), rights) {
        Ok(()) => {
            statement.explain(&mut rt.stderr());
            ExitCode::SUCCESS
        }
        Err(_) => {
            let _ = rt
                .stderr()
                .write_all(b"The statement could not be written out whole.\n");
            ExitCode::from(NOT_WHOLE)
        }
    }
}

// The bytes of ftr.bin, if it can be opened and read to its end.
fn read_rights<'a>(rt: &impl Files, room: &'a mut [u8]) -> Option<&'a [u8]>
    ensures { IfSome result (λ bytes. length bytes.now ≤ length room.old) }
{
    let mut file = fs::open(rt, "ftr.bin").ok()?;
    let bytes = read_full(&mut file, room);
    is_at_end(&mut file).then_some(bytes)
}

// Reads until the buffer is full, the input ends or a read fails. Gives the bytes that were read.
fn read_full<'a>(input: &mut impl Read, buffer: &'a mut [u8]) -> &'a [u8]
    ensures { length result.now ≤ length buffer.old }
{
    let mut done = 0;
    // A `while`: each read says how far it came, so that no range or iterator gives the next place.
    while done < buffer.len() {
        match input.read(&mut buffer[done..]) {
            Ok(0) | Err(_) => break,
            Ok(n) => done += n,
        }
    }
    &buffer[..done]
}

// Whether there is nothing left to read: neither a byte nor an error.
fn is_at_end(input: &mut impl Read) -> bool {
    let mut probe = [0u8; 1];
    matches!(input.read(&mut probe), Ok(0))
}

impl Statement {
    // The whole statement to its last line; an error where it could not be written out whole.
    fn print(
        &mut self,
        input: &mut impl Read,
        output: &mut impl Write,
        rights: &[u8],
    ) -> io::Result<()> {
        self.settle_year(input, output, rights)?;
        self.write_out(output)?;
        self.close_emptied();
        self.write_out(output)
    }

    // Reads 16 blocks at once and settles them, until more are read than the year has hours: over that many every run has stopped (theorem
    // enough_blocks).
    fn settle_year(
        &mut self,
        input: &mut impl Read,
        output: &mut impl Write,
        rights: &[u8],
    ) -> io::Result<()> {
        let mut room = [0u8; INPUT_ROOM];
        for _ in (0..=calendar::hours_in_year(settlement_run::PROGRAM_YEAR)).step_by(BLOCKS_READ) {
            if self.run.refusal != 0 {
                break;
            }
            let blocks = read_full(input, &mut room);
            self.settle_blocks(output, rights, blocks)?;
            // Where there is room left, the input has ended or cannot be read.
            if blocks.len() < INPUT_ROOM {
                break;
            }
        }
        Ok(())
    }

    // Settles block after block, until the run has stopped. The last block of the input may be short.
    fn settle_blocks(
        &mut self,
        output: &mut impl Write,
        rights: &[u8],
        blocks: &[u8],
    ) -> io::Result<()> {
        for block in blocks.chunks(hour_block::HOUR_BYTES) {
            if self.run.refusal != 0 {
                break;
            }
            self.settle_block(output, rights, block)?;
        }
        Ok(())
    }

    // One step. Where the buffer is full, its text is written out and the step is taken again.
    fn settle_block(
        &mut self,
        output: &mut impl Write,
        rights: &[u8],
        block: &[u8],
    ) -> io::Result<()>
        ensures { OnOk result (self.new.run.full ≡ false) }
    {
        self.step(rights, block);
        if self.run.full {
            self.settle_emptied(output, rights, block)?;
        }
        Ok(())
    }

    // The text is written out; the step with an empty buffer, which has room for it.
    fn settle_emptied(
        &mut self,
        output: &mut impl Write,
        rights: &[u8],
        block: &[u8],
    ) -> io::Result<()>
        ensures { OnOk result (self.new.run.full ≡ false) }
    {
        self.write_out(output)?;
        self.run.end = 0;
        self.step(rights, block);
        Ok(())
    }

    // One step, which does nothing but say so where the buffer is too full.
    fn step(&mut self, rights: &[u8], block: &[u8])
        ensures { self.new.run ≡ stepped_run rights.now block.now self.old.run self.old.text }
    {
        self.run = settlement_run::step(self.run, rights, block, &mut self.text);
    }

    // The last line in an empty buffer, which has room for it.
    fn close_emptied(&mut self)
        ensures { self.new.run.full ≡ false }
    {
        self.run.end = 0;
        self.run = settlement_run::closing(self.run, &mut self.text);
    }

    // The sentence on the refusal that stopped the run, if one did; whether it can be written changes nothing.
    #[tactic(auto, using(settlement_run::proofs::Within::sentence_within))]
    fn explain(&mut self, errors: &mut impl Write) {
        self.run.end = settlement_run::explain(self.run, &mut self.text);
        let _ = self.write_out(errors);
    }

    // Writes out the text, all of it or an error.
    fn write_out(&self, output: &mut impl Write) -> io::Result<()> {
        output.write_all(&self.text[..self.run.end])
    }
}
