// Text for standard output, gathered in a lent buffer that is written when the next text has no room.
ghost use Rattle.std.specs.Prelude.{◌≡◌, ◌+◌, ◌≤◌, ℕ, List, [], length, take, flat_map, None, OnOk};
ghost use Rattle.std.specs.List.{AllZip};
ghost use Rattle.std.specs.Io.{WritesAtMost};
ghost use Rattle.std.specs.Io.KnownBytes.{Appends, Keeps, WriteAppends};
ghost use Rattle.frames.specs.Gathered.{Gathered, gathered, gather};
ghost use Rattle.std.specs.Fmt.{decimal};
ghost use Rattle.frames.specs.Text.{spaced, number_line, tagged_line};

use std::io;
use std::io::Write;
use std::marker::Model;

// A writer that never fails: what can't be written is lost, and the program goes on. Clauses see what it has gathered (`Gathered`).
// std's `BufWriter` needs the heap.
#[derive(Drop)]
pub struct Output<'r, 'b, P: Print> {
    rt: &'r P,
    buf: &'b mut [u8],
    used: usize,
}

impl<'r, 'b, P: Print> Model for Output<'r, 'b, P> {
    ghost Value = { Gathered };

    ghost view = { λ o. gathered (length o.buf.now) (take o.used o.buf.now) };

    ghost invariant = { λ o. o.used ≤ length o.buf.now };
}

impl<'r, 'b, P: Print> Output<'r, 'b, P> {
    pub fn new(rt: &'r P, buf: &'b mut [u8]) -> Output<'r, 'b, P>
        ensures { result ≡ gathered (length buf.old) [] }
    {
        Output { rt, buf, used: 0 }
    }

    // What can't be written is lost.
    fn write_out(&mut self)
        ensures { self.new ≡ gathered self.old.capacity [] }
    {
        let used = self.used;
        let _ = self.rt.write_all(&self.buf[..used]);
        self.used = 0;
    }

    // Puts a text behind what is gathered, which is written first where there is no room for both.
    fn gather(&mut self, text: &[u8])
        requires { length text.now ≤ self.old.capacity }
        ensures { self.new ≡ gather self.old text.now }
    {
        if self.buf.len() - self.used < text.len() {
            self.write_out();
        }
        let to = self.used + text.len();
        self.buf[self.used..to].copy_from_slice(text);
        self.used = to;
    }
}

// It always answers `Ok`. The bytes that standard output holds are not known, so no clause says what came of those that are not pending.
impl<P: Print> Write for Output<'_, '_, P> {
    fn write(&mut self, text: &[u8]) -> io::Result<usize>
        ensures bound { WritesAtMost result text.now }
        ensures bytes { WriteAppends None None result text.now }
        ensures all { result ≡ Ok (length text.now) }
        ensures gathers { self.new ≡ gather self.old text.now }
    {
        self.write_all(text)?;
        Ok(text.len())
    }

    fn write_all(&mut self, text: &[u8]) -> io::Result<()>
        ensures bytes { OnOk result (Appends None None text.now) }
        ensures ok { result ≡ Ok tt }
        ensures gathers { self.new ≡ gather self.old text.now }
    {
        if self.buf.len() < text.len() {
            self.write_out();
            let _ = self.rt.write_all(text);
            return Ok(());
        }
        self.gather(text);
        Ok(())
    }

    fn flush(&mut self) -> io::Result<()>
        ensures bytes { Keeps None None }
        ensures ok { result ≡ Ok tt }
        ensures empty { self.new ≡ gathered self.old.capacity [] }
    {
        self.write_out();
        Ok(())
    }
}

// What can't fail here, whatever a writer's `write_number` and `write_line` may answer.
impl<P: Print> Output<'_, '_, P> {
    pub fn put_number(&mut self, number: u64)
        ensures { self.new ≡ gather self.old (decimal number) }
    {
        let mut text = [0; 20];
        let digits = itoa::write_digits(number, &mut text, 20);
        let _ = self.write_all(&text[digits..]);
    }

    // A slice as one line.
    pub fn put_line<T: Copy + Into<u64>>(&mut self, numbers: &[T])
        ensures { self.new.capacity ≡ self.old.capacity }
    {
        for (i, &number) in numbers.iter().enumerate() {
            if i != 0 {
                let _ = self.write_all(b" ");
            }
            self.put_number(number.into());
        }
        let _ = self.write_all(b"\n");
    }
}

// A number in decimal. None has more than twenty digits.
pub fn write_number<W: Write>(out: &mut W, number: u64) -> io::Result<()>
    ensures { OnOk result (Appends (W.contents out.old) (W.contents out.new) (decimal number)) }
{
    let mut text = [0; 20];
    let start = itoa::write_digits(number, &mut text, 20);
    out.write_all(&text[start..])
}

// A number behind a space, in 56 instructions; without the hint it takes 98, and by `write!` 240.
#[inline(always)]
fn put_spaced<W: Write>(out: &mut W, number: u64) -> io::Result<()>
    ensures { OnOk result (Appends (W.contents out.old) (W.contents out.new) (spaced number)) }
{
    let mut text = [b' '; 21];
    let digits = itoa::write_digits(number, &mut text, 21);
    out.write_all(&text[digits - 1..])
}

// Each number of a slice behind a space.
pub fn write_numbers<T: Copy + Into<u64>, W: Write>(out: &mut W, numbers: &[T]) -> io::Result<()>
    ensures { OnOk result ((values : List ℕ) × AllZip T.converts numbers.now values
        × Appends (W.contents out.old) (W.contents out.new) (flat_map spaced values)) }
{
    for &number in numbers {
        put_spaced(out, number.into())?;
    }
    Ok(())
}

// The numbers of a slice as one line, with spaces between them.
pub fn write_line<T: Copy + Into<u64>, W: Write>(out: &mut W, numbers: &[T]) -> io::Result<()>
    ensures { OnOk result ((values : List ℕ) × AllZip T.converts numbers.now values
        × Appends (W.contents out.old) (W.contents out.new) (number_line values)) }
{
    let [first, rest @ ..] = numbers else {
        return out.write_all(b"\n");
    };
    write_number(out, (*first).into())?;
    write_numbers(out, rest)?;
    out.write_all(b"\n")
}

// A line of a tag and numbers, each behind a space.
pub fn write_tagged<T: Copy + Into<u64>, W: Write>(
    out: &mut W,
    tag: &[u8],
    numbers: &[T],
) -> io::Result<()>
    ensures { OnOk result ((values : List ℕ) × AllZip T.converts numbers.now values
        × Appends (W.contents out.old) (W.contents out.new) (tagged_line tag.now values)) }
{
    out.write_all(tag)?;
    write_numbers(out, numbers)?;
    out.write_all(b"\n")
}
