ghost use Rattle.std.specs.Prelude.{◌≡◌, ◌+◌, ◌*◌, ◌<◌, ◌≤◌, [], ◌∷◌, length, take};
ghost use Rattle.printing.specs.Forms.{form_of, items_of};
ghost use Rattle.printing.specs.Laid.{laid, end_of};
ghost use Rattle.printing.specs.Pages.{Printed};

use itoa::{Buffer, Integer};

// An output that was lent, and the place up to which it is written. What does not fit is cut off.
// It is a slice and a place, since nothing allocates and C lends the output.
#[derive(Drop)]
pub struct Page<'a> {
    output: &'a mut [u8],
    at: usize,
}

impl<'a> Page<'a> {
    // The page over this output, to be written from a place on.
    pub fn new(output: &'a mut [u8], at: usize) -> Self
        ensures output { result.output ≡ output.entry }
        ensures at { result.at ≡ at }
    {
        Page { output, at }
    }

    // Where what is written ends.
    pub fn end(&self) -> usize
        ensures { result ≡ self.now.at }
    {
        self.at
    }

    // The output up to there.
    pub fn written(&self) -> &[u8]
        ensures { result.now ≡ take self.now.at self.now.output.now }
    {
        &self.output[..self.output.len().min(self.at)]
    }

    // Prints a form of this name and these numbers.
    // Not by `write!`: that may end in an error, where nothing is known, and what is printed here is promised whole.
    pub fn print_form<I: Integer>(&mut self, name: &[u8], numbers: &[I])
        ensures printed { Printed (form_of I.text name.now numbers.now) self.old self.new }
        ensures short { length (form_of I.text name.now numbers.now) ≤ length name.now + 3 + length numbers.now * (I.MAX_STR_LEN + 1) }
    {
        self.put(b"(");
        self.put(name);
        self.put_items(numbers);
        self.put(b")");
        self.put(b"\n");
    }

    // Puts numbers, a space before each.
    fn put_items<I: Integer>(&mut self, numbers: &[I])
        ensures printed { Printed (items_of I.text numbers.now) self.old self.new }
        ensures short { length (items_of I.text numbers.now) ≤ length numbers.now * (I.MAX_STR_LEN + 1) }
    {
        let mut digits = Buffer::new();
        for number in numbers {
            self.put(b" ");
            self.put_number(*number, &mut digits);
        }
    }

    // Puts a number in decimal. Its digits are made in a buffer that serves all numbers of a form.
    fn put_number<I: Integer>(&mut self, number: I, digits: &mut Buffer)
        ensures printed { Printed (I.text number) self.old self.new }
        ensures short { length (I.text number) ≤ I.MAX_STR_LEN }
    {
        self.put(digits.format(number).as_bytes());
    }

    // Puts bytes, as far as there is room.
    fn put(&mut self, text: &[u8])
        ensures { Printed text.now self.old self.new }
    {
        let Page { output, at } = self;
        *at = put_bytes(output, *at, text);
    }
}

// Puts bytes into an output from a place on, as far as there is room; answers where they end. They are put one by one: a copy
// of a slice would call for a function that a C program would have to bring along.
fn put_bytes(output: &mut [u8], mut at: usize, bytes: &[u8]) -> usize
    ensures after { output.new ≡ laid at bytes.now output.old }
    ensures end { result ≡ end_of at bytes.now (length output.old) }
{
    for byte in bytes {
        at = put_byte(output, at, *byte);
    }
    at
}

// Puts a byte into an output at a place, if there is room for it; answers where it ends.
fn put_byte(output: &mut [u8], at: usize, byte: u8) -> usize
    ensures after { output.new ≡ laid at (byte ∷ []) output.old }
    ensures end { result ≡ end_of at (byte ∷ []) (length output.old) }
{
    if at < output.len() {
        write_byte(output, at, byte)
    } else {
        at
    }
}

// Writes a byte at a place of an output; answers the place behind it.
fn write_byte(output: &mut [u8], at: usize, byte: u8) -> usize
    requires { at < length output.old }
    ensures after { output.new ≡ laid at (byte ∷ []) output.old }
    ensures end { result ≡ end_of at (byte ∷ []) (length output.old) }
{
    output[at] = byte;
    at + 1
}
