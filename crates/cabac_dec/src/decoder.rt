//! The decoder.
ghost use Rattle.std.specs.Prelude.{◌≡◌, ◌-◌, ◌*◌, ◌/◌, ◌^◌, ◌<◌, ◌≤◌, ◌↔◌, length, IfSome, IsSome, IsTrue};
ghost use Rattle.h265_model.specs.declared.Place.TheVariants as places;
ghost use Rattle.h265_model.specs.Bits.{bits};
ghost use Rattle.h265_model.specs.Binarise.{fl_read};
ghost use Rattle.h265_model.specs.Code.{InRange};
ghost use Rattle.h265_model.specs.Engine.{start, bin, renormalised, context_read, bypass_read, terminate_read, samples, is_done};
ghost use Rattle.cabac_dec.specs.State.{Reading, left, IsOpen, IsEnded, IsOpenAfter, Answers, Leaves, Fills, Shows};

use crate::window::Window;
use cabac_tables::{Contexts, lps};
use h265_model::Place;
use std::marker::Model;

/// The arithmetic decoding engine over bytes, with its contexts.
///
/// After a call that answers `None` nothing is known of a decoder.
#[derive(Debug, Drop)]
pub struct Decoder<'a> {
    window: Window<'a>,
    range: u32,
    contexts: Contexts,
}

impl<'a> Model for Decoder<'a> {
    ghost use Rattle.h265_model.specs.Engine.{Engine};
    ghost use Rattle.cabac_dec.specs.State.{engine, IsDecoder};

    ghost Value = { Engine };

    ghost view = { λ d. engine d.range d.contexts d.window };

    ghost invariant = { λ d. IsDecoder d.range d.window };
}

impl<'a> Decoder<'a> {
    /// Starts on a row of bytes, and answers nothing exactly where 9 bits aren't there or are 510 or 511 (9.3.2.5).
    pub fn new(bytes: &'a [u8], contexts: Contexts) -> Option<Decoder<'a>>
        ensures value { result ≡ start contexts (bits bytes.now) }
        ensures open { IfSome result IsOpen }
    {
        Decoder::start(Window::at(bytes, 0), contexts)
    }

    fn start(window: Window<'a>, contexts: Contexts) -> Option<Decoder<'a>>
        requires { window.offset ≡ 0 }
        ensures value { result ≡ start contexts (left window.entry) }
        ensures open { IfSome result IsOpen }
    {
        let mut window = window;
        if !window.has(9) {
            return None;
        }
        window.advance(9, 0);
        if !window.is_below(510) {
            return None;
        }
        Some(Decoder {
            window,
            range: 510,
            contexts,
        })
    }

    /// Reads a bin, and answers nothing exactly where the bits end (9.3.4.3).
    #[inline(always)]
    pub fn bin(&mut self, place: Place) -> Option<bool>
        requires open { IsOpen self.old }
        requires in_range { InRange place }
        ensures value { Answers result (bin place self.old) self.new }
        ensures open { IfSome result (λ value. IsOpenAfter place value self.new) }
    {
        match place {
            Place::Context(n) => self.context_bin(n),
            Place::Bypass => self.bypass_bin(),
            Place::Terminate => self.terminating_bin(),
        }
    }

    // 9.3.4.3.3. The range doubles until it has nine digits.
    #[inline(always)]
    fn renormalise(&mut self, range: u32) -> Option<()>
        requires least { 4 ≤ range }
        requires most { range ≤ 510 }
        requires below { self.old.offset < range }
        ensures value { Leaves result (renormalised (record self.old { range = range })) self.new }
        ensures open { IfSome result (λ _. IsOpen self.new) }
    {
        if range >= 256 {
            self.range = range;
            return Some(());
        }
        let doublings = range.leading_zeros() - 23;
        if !self.window.has(doublings) {
            return None;
        }
        self.window.advance(doublings, 0);
        self.range = range << doublings;
        Some(())
    }

    // 9.3.4.3.2.
    #[inline(always)]
    fn context_bin(&mut self, n: u32) -> Option<bool>
        requires open { IsOpen self.old }
        requires in_range { n < 130 }
        ensures value { Answers result (context_read n self.old) self.new }
        ensures open { IfSome result (λ _. IsOpen self.new) }
    {
        let state = self.contexts.get(n);
        let small = lps(state, self.range >> 6 & 3);
        let large = self.range - small;
        let likely = state & 1 == 1;
        if self.window.is_below(large) {
            self.contexts.step(n, likely);
            self.renormalise(large)?;
            return Some(likely);
        }
        self.contexts.step(n, !likely);
        self.window.advance(0, large);
        self.renormalise(small)?;
        Some(!likely)
    }

    // 9.3.4.3.4.
    #[inline(always)]
    fn bypass_bin(&mut self) -> Option<bool>
        requires open { IsOpen self.old }
        ensures value { Answers result (bypass_read self.old) self.new }
        ensures open { IfSome result (λ _. IsOpen self.new) }
    {
        if !self.window.has(1) {
            return None;
        }
        if self.window.head(1) < self.range {
            self.window.advance(1, 0);
            return Some(false);
        }
        self.window.advance(1, self.range);
        Some(true)
    }

    // 9.3.4.3.5. After a 1 nothing is renormalised.
    #[inline(always)]
    fn terminating_bin(&mut self) -> Option<bool>
        requires open { IsOpen self.old }
        ensures value { Answers result (terminate_read self.old) self.new }
        ensures open { IfSome result (λ value. IsOpenAfter places.Terminate value self.new) }
    {
        let range = self.range - 2;
        if self.window.is_below(range) {
            self.renormalise(range)?;
            return Some(false);
        }
        self.range = range;
        Some(true)
    }

    /// Reads `count` bypass bins at once, most significant first, and answers nothing exactly where the bits end.
    #[inline(always)]
    pub fn bypass(&mut self, count: u32) -> Option<u32>
        requires open { IsOpen self.old }
        requires few { count ≤ 20 }
        ensures value { Answers result (fl_read count self.old) self.new }
        ensures open { IfSome result (λ _. IsOpen self.new) }
    {
        if !self.window.has(count) {
            return None;
        }
        let value = self.window.head(count) / self.range;
        self.window.advance(count, value * self.range);
        Some(value)
    }

    /// What `bypass` would answer, without reading it.
    #[inline(always)]
    pub fn peek(&mut self, count: u32) -> Option<u32>
        requires open { IsOpen self.old }
        requires few { count ≤ 20 }
        ensures value { Shows result (fl_read count self.old) }
        ensures same { self.new ≡ self.old }
    {
        if !self.window.has(count) {
            return None;
        }
        Some(self.window.head(count) / self.range)
    }

    /// Reads the first `count` of `peeked` bypass bins whose digits `peek` told, and gives their own: nothing is divided.
    #[inline(always)]
    pub fn skip(&mut self, count: u32, peeked: u32, digits: u32) -> u32
        requires open { IsOpen self.old }
        requires few { peeked ≤ 20 }
        requires first { count ≤ peeked }
        requires known { Shows (Some digits) (fl_read peeked self.old) }
        ensures value { fl_read count self.old ≡ Some (result, self.new) }
        ensures digits { result ≡ digits / 2 ^ (peeked - count) }
        ensures open { IsOpen self.new }
    {
        let _there = self.window.has(count);
        let value = digits >> (peeked - count);
        let less = value * self.range;
        self.window.advance(count, less);
        value
    }

    /// Fills `out` with samples after a terminating bin 1, and starts anew. It answers nothing exactly where the last bit read isn't 1,
    /// the bits to the byte aren't 0, or the samples or a start aren't there (7.3.8.7).
    pub fn pcm(&mut self, out: &mut [u8]) -> Option<()>
        requires ended { IsEnded self.old }
        ensures value { Fills result out.new (samples (length out.old) self.old) self.new }
        ensures open { IfSome result (λ _. IsOpen self.new) }
    {
        let window = self.window.samples(out)?;
        *self = Decoder::start(window, self.contexts)?;
        Some(())
    }

    /// After a terminating bin 1, something exactly where the last bit read is 1, zeros follow to the byte and no byte is left.
    pub fn end(&mut self) -> Option<()>
        requires { IsEnded self.old }
        ensures done { IsTrue (is_done self.old) ↔ IsSome result }
        ensures same { self.new ≡ self.old }
    {
        let at = self.window.aligned()?;
        if at < self.window.len() {
            return None;
        }
        Some(())
    }

    /// The contexts as they are now.
    pub fn contexts(&self) -> Contexts
        ensures { result ≡ self.now.contexts }
    {
        self.contexts
    }
}
