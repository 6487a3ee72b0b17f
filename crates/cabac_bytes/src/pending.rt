//! Bytes of which the last may still be raised by a carry.
ghost use Rattle.std.specs.Prelude.{◌≡◌, ◌<◌, ◌≤◌, ◌*◌, ◌%◌, ◌^◌, ◌++◌, ◌∷◌, [], replicate, Some, None, OnOk, OnErr};
ghost use Rattle.cabac_bytes.specs.Pending.{limit, kept, Passes, Closes, Begins};

use h265_model::NoMemory;
use std::alloc::Global;
use std::marker::Model;

/// Bytes, of which the last one that isn't 255 is held back with those after it, since a carry may come.
#[derive(Debug, Drop)]
pub(crate) struct PendingBytes {
    out: Vec<u8>,
    held: Option<u8>,
    // How many bytes 255 follow the one that is held.
    run: u64,
}

impl Model for PendingBytes {
    ghost use Rattle.cabac_bytes.specs.Pending.{Pending};

    ghost Value = { Pending };

    ghost view = { λ s. record { out = s.out.items; held = s.held; run = s.run } };
}

impl PendingBytes {
    /// No bytes.
    pub(crate) fn new(alloc: Global) -> PendingBytes
        ensures { result ≡ record { out = []; held = None; run = 0 } }
    {
        PendingBytes {
            out: Vec::new(alloc),
            held: None,
            run: 0,
        }
    }

    // One more byte, which carries where it is above 255.
    fn pass_on(&mut self, lead: u64) -> Result<(), NoMemory>
        requires { lead < 256 * limit self.old.held }
        ensures ok { OnOk result (Passes 256 1 lead self.old self.new) }
        ensures err { OnErr result (self.new ≡ self.old) }
    {
        match self.held {
            None => {
                self.held = Some(lead as u8);
                self.run = 0;
            }
            Some(held) => {
                if lead == 255 {
                    if self.run == u64::MAX {
                        return Err(NoMemory);
                    }
                    self.run += 1;
                    return Ok(());
                }
                if lead < 255 {
                    append_run(&mut self.out, held, 255, self.run)?;
                    self.held = Some(lead as u8);
                    self.run = 0;
                    return Ok(());
                }
                append_run(&mut self.out, held + 1, 0, self.run)?;
                self.held = Some((lead - 256) as u8);
                self.run = 0;
            }
        }
        Ok(())
    }

    /// Four more bytes, which carry where their number is too large for them.
    pub(crate) fn pass_four(&mut self, lead: u64) -> Result<(), NoMemory>
        requires { lead < 4294967296 * limit self.old.held }
        ensures ok { OnOk result (Passes 4294967296 4 lead self.old self.new) }
        ensures err { OnErr result (self.new ≡ self.old) }
    {
        if let Some(held) = self.held {
            if self.run == 0 && lead % 256 != 255 {
                return self.pass_quickly(held, lead);
            }
        }
        let (start, held, run) = (self.out.len(), self.held, self.run);
        match self.pass_each(lead) {
            Ok(()) => Ok(()),
            Err(refused) => {
                self.out.truncate(start);
                self.held = held;
                self.run = run;
                Err(refused)
            }
        }
    }

    // Four more bytes behind the one that is held, of which the last one is held then: a carry comes no further.
    #[inline(always)]
    fn pass_quickly(&mut self, held: u8, lead: u64) -> Result<(), NoMemory>
        requires held { self.old.held ≡ Some held }
        requires run { self.old.run ≡ 0 }
        requires last { lead % 256 < 255 }
        requires fits { lead < 4294967296 * limit self.old.held }
        ensures ok { OnOk result (Passes 4294967296 4 lead self.old self.new) }
        ensures err { OnErr result (self.new ≡ self.old) }
    {
        let bytes = [
            held + (lead >> 32) as u8,
            ((lead >> 24) % 256) as u8,
            ((lead >> 16) % 256) as u8,
            ((lead >> 8) % 256) as u8,
        ];
        self.out.extend_from_slice(&bytes)?;
        self.held = Some((lead % 256) as u8);
        Ok(())
    }

    fn pass_each(&mut self, lead: u64) -> Result<(), NoMemory>
        requires { lead < 4294967296 * limit self.old.held }
        ensures ok { OnOk result (Passes 4294967296 4 lead self.old self.new) }
        ensures kept { Begins self.old.out self.new.out }
    {
        self.pass_on(lead >> 24)?;
        self.pass_on((lead >> 16) % 256)?;
        self.pass_on((lead >> 8) % 256)?;
        self.pass_on(lead % 256)
    }

    /// Gives up what is held: no carry comes any more.
    pub(crate) fn settle(&mut self) -> Result<(), NoMemory>
        ensures ok { OnOk result (self.new ≡ record { out = self.old.out ++ kept self.old.held self.old.run; held = None; run = 0 }) }
        ensures err { OnErr result (self.new ≡ self.old) }
    {
        if let Some(held) = self.held {
            append_run(&mut self.out, held, 255, self.run)?;
        }
        self.held = None;
        self.run = 0;
        Ok(())
    }

    /// The last `count` bytes: those of `number`, which carries where it is too large for them. No carry comes any more.
    pub(crate) fn close(&mut self, number: u64, count: u32) -> Result<(), NoMemory>
        requires some { 0 < count }
        requires few { count ≤ 6 }
        requires fits { number < limit self.old.held * 256 ^ count }
        ensures ok { OnOk result (Closes number count self.old self.new) }
        ensures err { OnErr result (self.new ≡ self.old) }
    {
        let (start, held, run) = (self.out.len(), self.held, self.run);
        match self.pass_all(number, count) {
            Ok(()) => Ok(()),
            Err(refused) => {
                self.out.truncate(start);
                self.held = held;
                self.run = run;
                Err(refused)
            }
        }
    }

    fn pass_all(&mut self, number: u64, count: u32) -> Result<(), NoMemory>
        requires some { 0 < count }
        requires few { count ≤ 6 }
        requires fits { number < limit self.old.held * 256 ^ count }
        ensures ok { OnOk result (Closes number count self.old self.new) }
        ensures kept { Begins self.old.out self.new.out }
    {
        let mut rest = number;
        let mut left = count;
        while left > 0 {
            left -= 1;
            self.pass_on(rest >> (8 * left))?;
            rest &= (1 << (8 * left)) - 1;
        }
        self.settle()
    }

    /// Appends bytes, and holds none back.
    pub(crate) fn append(&mut self, bytes: &[u8]) -> Result<(), NoMemory>
        ensures ok { OnOk result (self.new ≡ record { out = self.old.out ++ bytes.now; held = None; run = 0 }) }
        ensures err { OnErr result (self.new ≡ self.old) }
    {
        self.out.extend_from_slice(bytes)?;
        self.held = None;
        self.run = 0;
        Ok(())
    }

    /// The bytes that stay.
    pub(crate) fn into_bytes(self) -> Vec<u8>
        ensures { result.items ≡ self.out }
    {
        let PendingBytes {
            out,
            held: _,
            run: _,
        } = self;
        out
    }
}

// Appends a byte and some that are alike, or nothing.
fn append_run(out: &mut Vec<u8>, first: u8, fill: u8, count: u64) -> Result<(), NoMemory>
    ensures ok { OnOk result (out.new.items ≡ out.old.items ++ first ∷ replicate count fill) }
    ensures err { OnErr result (out.new.items ≡ out.old.items) }
{
    let start = out.len();
    out.push(first)?;
    let mut done = 0;
    while done < count {
        if out.push(fill).is_err() {
            out.truncate(start);
            return Err(NoMemory);
        }
        done += 1;
    }
    Ok(())
}
