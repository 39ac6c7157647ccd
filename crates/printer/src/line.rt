// The line that items are written to, with `, ` between two of them (01, printed list). An item can be empty, so whether one was written is
// kept beside the length. Reworked from starlark 0.14.2, src/eval/runtime/params/display.rs (fmt_param_spec_maybe_multiline), Apache-2.0.
ghost use Rattle.std.specs.Prelude.{◌≡◌, false, [], ◌∷◌, ◌++◌, ◌+◌, ◌≤◌, length, option_copied, option_to_list};
ghost use Rattle.cells.specs.Out.{Begins, Wrote};
ghost use Rattle.printer.specs.Line.{cursor_of, between, mark_for, Room, Added};

use cells::out::write_bytes;

// The output, how many of its bytes are written, and whether an item is. No `Cursor` stands here: of bytes that are lent
// to a struct within a struct a proof knows their number alone afterwards.
#[derive(Drop)]
pub struct Line<'a> {
    pub out: &'a mut [u8],
    pub at: usize,
    pub begun: bool,
}

impl<'a> Line<'a> {
    // A line from byte 0 of an output on.
    pub(crate) fn new(out: &'a mut [u8]) -> Line<'a>
        ensures begins { Begins out.entry (cursor_of result) }
        ensures begun { result.begun ≡ false }
    {
        Line {
            out,
            at: 0,
            begun: false,
        }
    }

    // Some bytes, behind those that are written.
    fn write(&mut self, text: &[u8])
        requires { self.old.at + length text.now ≤ length self.old.out.now }
        ensures wrote { Wrote text.now (cursor_of self.old) (cursor_of self.new) }
        ensures begun { self.new.begun ≡ self.old.begun }
    {
        self.at = write_bytes(text, self.at, self.out);
    }

    // One more item: a name, and ` = ...` behind it where the code is that of a parameter that may be left out.
    pub(crate) fn write_item(&mut self, name: &[u8], code: u8)
        requires { Room ((name.now ++ mark_for code) ∷ []) self.old }
        ensures { Added ((name.now ++ mark_for code) ∷ []) self.old self.new }
    {
        self.write_between();
        self.write(name);
        self.write_mark(code);
        self.begun = true;
    }

    // An item that is no parameter's name, where there is one: it has no code, and so no mark.
    pub(crate) fn write_sign(&mut self, sign: Option<&[u8]>)
        requires { Room (option_to_list (option_copied sign)) self.old }
        ensures { Added (option_to_list (option_copied sign.entry)) self.old self.new }
    {
        if let Some(text) = sign {
            self.write_item(text, 0);
        }
    }

    // The comma and the blank ahead of every item but the first.
    fn write_between(&mut self)
        requires { self.old.at + length (between self.old.begun) ≤ length self.old.out.now }
        ensures wrote { Wrote (between self.old.begun) (cursor_of self.old) (cursor_of self.new) }
        ensures begun { self.new.begun ≡ self.old.begun }
    {
        if self.begun {
            self.write(b", ");
        }
    }

    fn write_mark(&mut self, code: u8)
        requires { self.old.at + length (mark_for code) ≤ length self.old.out.now }
        ensures wrote { Wrote (mark_for code) (cursor_of self.old) (cursor_of self.new) }
        ensures begun { self.new.begun ≡ self.old.begun }
    {
        match code {
            2..=3 => self.write(b" = ..."),
            _ => {}
        }
    }
}
