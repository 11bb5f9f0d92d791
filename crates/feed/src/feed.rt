//! A window that slides over a reader.
ghost use Rattle.std.specs.Prelude.{◌≡◌, ℕ, List, ◌+◌, ◌<◌, ◌≤◌, [], ◌++◌, length, take, drop, false};
ghost use Rattle.std.specs.Prelude.{IfNone, IfOk, IfSome, OnOk};
ghost use Rattle.std.specs.Borrow.{sem};
ghost use Rattle.std.specs.List.{refill};
ghost use Rattle.circular_buffer.specs.Buffer.{buffer};
ghost use Rattle.memchr.specs.Find.{IsFirstByte, IsLastByte, is_byte};
ghost use Rattle.ruletable.specs.Writing.{IsPrefixOf};
ghost use Rattle.feed.specs.Feed.{Grows, IsHeld, IsTrueOfReader, SameLoan, allowance_of, bytes_of, capacity_of};
ghost use Rattle.feed.specs.Feed.{flow_of, input_limit, loan_of, reader_of};
ghost use Rattle.feed.specs.Window.{LendsWindow};

use crate::held::{Flow, Held};
use crate::source::Source;
use circular_buffer::HeapCircularBuffer;
use memchr::{memchr, memrchr};
use ruletable::Memory;
use std::alloc::Global;

/// After so many bytes of input no more is asked for, and the reader is taken to have failed.
const INPUT_LIMIT: usize = 9_223_372_036_854_775_807;

/// A window on the bytes of a reader, from a position on. It borrows the reader, and reads only in `fill`.
///
/// The ring has the bytes of the window, in one or two pieces. Taken bytes leave it at the front, and read bytes join
/// it at the end. It never grows, so a run takes constant memory. Once `flow` says that the reader ended or failed, the
/// window asks it for nothing more.
#[derive(Drop)]
pub struct Feed<'a, R> {
    /// The bytes that were read and not taken.
    ring: HeapCircularBuffer<u8>,
    /// How many more bytes the reader may be asked for.
    left: usize,
    /// Whether the reader may have more.
    flow: Flow,
    /// The reader.
    reader: &'a mut R,
}

impl<'a, R: Source> Feed<'a, R> {
    /// Makes the room for a window of at most `limit` + 1 bytes. It is made before the reader is lent, so that an
    /// allocation that fails leaves the reader as it was.
    pub fn room(alloc: Global, limit: usize) -> Result<HeapCircularBuffer<u8>, Memory>
        requires { limit ≤ 16777216 }
        ensures { IfOk result (λ ring. ring ≡ buffer [] (limit + 1)) }
    {
        match HeapCircularBuffer::with_capacity(alloc, limit + 1) {
            Ok(ring) => Ok(ring),
            Err(_) => Err(Memory),
        }
    }

    /// Makes a window over a reader that has neither failed nor reported its end. Nothing is read.
    pub fn new(ring: HeapCircularBuffer<u8>, reader: &'a mut R) -> Feed<'a, R>
        requires not_failed { R.failed reader.old ≡ false }
        requires not_ended { R.ended reader.old ≡ false }
        ensures bytes { bytes_of result ≡ ring.items }
        ensures capacity { capacity_of result ≡ ring.capacity }
        ensures allowance { allowance_of result ≡ input_limit }
        ensures flow { flow_of result ≡ Flow.Open }
        ensures loan { loan_of result ≡ reader.entry }
    {
        Feed {
            ring,
            left: INPUT_LIMIT,
            flow: Flow::Open,
            reader,
        }
    }

    /// Returns how many more bytes it has room for.
    #[inline(always)]
    fn free(&self) -> usize
        ensures { result + length (bytes_of self.now) ≡ capacity_of self.now }
    {
        self.ring.capacity() - self.len()
    }

    /// Reads once, into a buffer that is not empty, no more than there is room for.
    #[inline(always)]
    fn pull(&mut self, buffer: &mut [u8])
        requires room { length (bytes_of self.old) < capacity_of self.old }
        requires open { flow_of self.old ≡ Flow.Open }
        requires reported { IsTrueOfReader R.remaining R.failed R.ended self.old }
        requires buffer { 0 < length buffer.old }
        ensures loan { SameLoan self.old self.new }
        ensures grows { Grows R.remaining self.old self.new }
        ensures reported { IsTrueOfReader R.remaining R.failed R.ended self.new }
        ensures goes { flow_of self.new ≡ Flow.Open → length (bytes_of self.old) < length (bytes_of self.new) }
        ensures few { length (bytes_of self.new) ≤ length (bytes_of self.old) + length buffer.old }
    {
        let room = self.free();
        if self.left == 0 {
            self.flow = Flow::Broken;
            return;
        }
        let most = room.min(buffer.len()).min(self.left);
        match self.reader.read(&mut buffer[..most]) {
            Ok(0) => self.flow = Flow::Ended,
            Ok(n) => {
                self.ring.fill_from_slice(&buffer[..n]);
                self.left -= n;
            }
            Err(_) => self.flow = Flow::Broken,
        }
    }

    /// Reads once where there is little room. A function pays for its locals at each call, so a large buffer is not
    /// made here.
    #[inline(always)]
    fn pull_few(&mut self)
        requires room { length (bytes_of self.old) < capacity_of self.old }
        requires open { flow_of self.old ≡ Flow.Open }
        requires reported { IsTrueOfReader R.remaining R.failed R.ended self.old }
        ensures loan { SameLoan self.old self.new }
        ensures grows { Grows R.remaining self.old self.new }
        ensures reported { IsTrueOfReader R.remaining R.failed R.ended self.new }
        ensures goes { flow_of self.new ≡ Flow.Open → length (bytes_of self.old) < length (bytes_of self.new) }
        ensures few { length (bytes_of self.new) ≤ length (bytes_of self.old) + 32 }
    {
        let mut few = [0u8; 32];
        self.pull(&mut few);
    }

    /// Reads once where there is much room.
    #[inline(never)]
    fn pull_many(&mut self)
        requires room { length (bytes_of self.old) < capacity_of self.old }
        requires open { flow_of self.old ≡ Flow.Open }
        requires reported { IsTrueOfReader R.remaining R.failed R.ended self.old }
        ensures loan { SameLoan self.old self.new }
        ensures grows { Grows R.remaining self.old self.new }
        ensures reported { IsTrueOfReader R.remaining R.failed R.ended self.new }
        ensures goes { flow_of self.new ≡ Flow.Open → length (bytes_of self.old) < length (bytes_of self.new) }
        ensures few { length (bytes_of self.new) ≤ length (bytes_of self.old) + 4096 }
    {
        let mut many = [0u8; 4096];
        self.pull(&mut many);
    }

    /// Reads once, unless the window is full, or the reader ended or failed: then it returns which. It asks for at most
    /// 4096 bytes, for no more than there is room for, and for none after the greatest length of an input.
    #[inline(always)]
    pub fn read_more(&mut self) -> Option<Held>
        requires { IsTrueOfReader R.remaining R.failed R.ended self.old }
        ensures loan { SameLoan self.old self.new }
        ensures grows { Grows R.remaining self.old self.new }
        ensures reported { IsTrueOfReader R.remaining R.failed R.ended self.new }
        ensures few { length (bytes_of self.new) ≤ length (bytes_of self.old) + 4096 }
        ensures held { IfSome result (λ held. (self.new ≡ self.old) × IsHeld self.new held
            × (length (bytes_of self.new) ≤ capacity_of self.new)) }
        ensures went { IfNone result ((length (bytes_of self.old) < capacity_of self.old)
            × (flow_of self.old ≡ Flow.Open)
            × (flow_of self.new ≡ Flow.Open → length (bytes_of self.old) < length (bytes_of self.new))) }
    {
        let room = self.free();
        if room == 0 {
            return Some(Held::Full);
        }
        match self.flow {
            Flow::Open => {}
            Flow::Ended => return Some(Held::End),
            Flow::Broken => return Some(Held::Fault),
        }
        if room <= 32 {
            self.pull_few();
        } else {
            self.pull_many();
        }
        None
    }

    /// Reads until the window is full, the reader ends or fails, and returns which. It asks for no more bytes than
    /// there is room for, and for none after the end, a fault or the greatest length of an input.
    #[inline(always)]
    pub fn fill(&mut self) -> Held
        requires { IsTrueOfReader R.remaining R.failed R.ended self.old }
        ensures loan { SameLoan self.old self.new }
        ensures grows { Grows R.remaining self.old self.new }
        ensures reported { IsTrueOfReader R.remaining R.failed R.ended self.new }
        ensures held { IsHeld self.new result }
        ensures within { length (bytes_of self.new) ≤ capacity_of self.new }
    {
        loop {
            if let Some(held) = self.read_more() {
                return held;
            }
        }
    }

    /// Returns how many bytes are held.
    #[inline(always)]
    pub fn len(&self) -> usize
        ensures len { result ≡ length (bytes_of self.now) }
        ensures within { result ≤ capacity_of self.now }
    {
        self.ring.len()
    }

    /// Returns the first bytes that are held, as many as lie in one piece. Nothing is moved.
    #[inline(always)]
    pub fn front(&self) -> &[u8]
        ensures { IsPrefixOf result.now (bytes_of self.now) }
    {
        let (front, _) = self.ring.as_slices();
        front
    }

    /// Returns where a byte first stands in what is held. It is looked for piece by piece, and nothing is moved.
    pub fn find(&self, byte: u8) -> Option<usize>
        ensures { IsFirstByte (is_byte byte) (bytes_of self.now) result }
    {
        let _len = self.len();
        let (front, back) = self.ring.as_slices();
        match memchr(byte, front) {
            Some(k) => Some(k),
            None => match memchr(byte, back) {
                Some(k) => Some(front.len() + k),
                None => None,
            },
        }
    }

    /// Returns where a byte last stands in what is held. It is looked for piece by piece, and nothing is moved.
    pub fn rfind(&self, byte: u8) -> Option<usize>
        ensures { IsLastByte (is_byte byte) (bytes_of self.now) result }
    {
        let _len = self.len();
        let (front, back) = self.ring.as_slices();
        match memrchr(byte, back) {
            Some(k) => Some(front.len() + k),
            None => memrchr(byte, front),
        }
    }

    /// Puts the first `n` bytes into `out`, in place of what that holds. They are copied piece by piece, and nothing is
    /// moved. `Memory` if an allocation fails.
    pub fn copy_front(&self, n: usize, out: &mut Vec<u8>) -> Result<(), Memory>
        requires { n ≤ length (bytes_of self.now) }
        ensures { OnOk result (out.new.items ≡ take n (bytes_of self.now)) }
    {
        let (front, back) = self.ring.as_slices();
        let first = n.min(front.len());
        out.clear();
        out.extend_from_slice(&front[..first])?;
        out.extend_from_slice(&back[..n - first])?;
        Ok(())
    }

    /// Returns all that is held, in one piece. Where it lay in two, it is moved, which costs the length of the window.
    pub fn window(&mut self) -> &mut [u8]
        ensures* lends { sem 𝓛 (LendsWindow R.row self.entry result) }
        ensures value { result.now ≡ bytes_of self.old }
        ensures same { (ws : List ℕ) → length ws ≡ length (bytes_of self.old)
            → refill (length (bytes_of self.old)) (bytes_of self.old) ws ≡ ws }
    {
        self.ring.make_contiguous()
    }

    /// Lets go of the first `n` bytes.
    #[inline(always)]
    pub fn skip(&mut self, n: usize)
        requires { n ≤ length (bytes_of self.old) }
        ensures loan { SameLoan self.old self.new }
        ensures reader { reader_of self.new ≡ reader_of self.old }
        ensures bytes { bytes_of self.new ≡ drop n (bytes_of self.old) }
        ensures capacity { capacity_of self.new ≡ capacity_of self.old }
        ensures flow { flow_of self.new ≡ flow_of self.old }
        ensures allowance { allowance_of self.new ≡ allowance_of self.old }
    {
        let len = self.len();
        self.ring.truncate_front(len - n);
    }

    /// Returns the reader. What is held is let go.
    pub fn into_reader(self) -> &'a mut R
        ensures { result ≡ loan_of self.entry }
    {
        let Feed {
            ring: _ring,
            left: _,
            flow: _,
            reader,
        } = self;
        reader
    }
}
