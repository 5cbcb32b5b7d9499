ghost use Rattle.std.specs.Prelude.{◌≡◌};
ghost use Rattle.forms.specs.Faults.{fault_column, fault_number};
ghost use Rattle.forms.specs.declared.form_fault.FormFault.TheVariants.{Text};

use text::text_fault::TextFault;

// What is wrong with a line. Columns are counted from 1.
#[derive(Clone, Copy, PartialEq, Eq, Debug)]
pub enum FormFault {
    // The line is no form.
    Text(TextFault),
    // A name that no form has, or that belongs elsewhere.
    Name { column: usize },
    // An item that does not fit, is one too many, or is missing before this closing bracket.
    Item { column: usize },
    // An engine where there is one, or another form where there is none yet.
    Order,
}

impl FormFault {
    // The number that the documents and the console give this fault. Callers print it, so it stays a number.
    pub fn number(self) -> u32
        ensures { result ≡ fault_number self }
    {
        match self {
            FormFault::Text(_) => 41,
            FormFault::Name { .. } => 42,
            FormFault::Item { .. } => 43,
            FormFault::Order => 44,
        }
    }

    // The column that the console names with it.
    pub fn column(self) -> usize
        ensures { result ≡ fault_column self }
    {
        match self {
            FormFault::Text(fault) => fault.column,
            FormFault::Name { column } | FormFault::Item { column } => column,
            FormFault::Order => 1,
        }
    }
}

// A fault of the text on its way up by `?`.
impl From<TextFault> for FormFault {
    ghost from_gives = { λ e r. r ≡ Text e };

    fn from(text_fault: TextFault) -> FormFault {
        FormFault::Text(text_fault)
    }
}
