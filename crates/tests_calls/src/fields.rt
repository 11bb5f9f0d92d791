//! The fields of a row, and the text that its call prints.

use std::alloc::Global;

/// The fields of a row.
#[derive(Drop)]
pub struct Fields {
    /// The texts of the fields, in order.
    pub(crate) texts: Vec<Vec<u8>>,
}

impl Fields {
    /// Returns the number of fields.
    pub fn len(&self) -> usize {
        self.texts.len()
    }

    /// Returns a field; the empty text if the row has no such field.
    pub fn text(&self, at: usize) -> &[u8] {
        match self.texts.get(at) {
            Some(text) => text.as_slice(),
            None => b"",
        }
    }

    /// Returns a field as text in UTF-8; the empty text if it is none.
    fn string(&self, at: usize) -> &str {
        str::from_utf8(self.text(at)).unwrap_or("")
    }

    /// Returns the number that a field spells; 0 if it spells none.
    pub fn number(&self, at: usize) -> usize {
        self.string(at).parse::<usize>().unwrap_or(0)
    }

    /// Returns whether a field is this text.
    pub fn is(&self, at: usize, text: &[u8]) -> bool {
        self.text(at) == text
    }
}

/// A text that a call prints. An allocation that fails cuts it short, and it counts for no text then.
#[derive(Drop)]
pub struct Text {
    /// The bytes so far.
    bytes: Vec<u8>,
    /// Whether an allocation failed.
    is_cut: bool,
}

impl Text {
    /// Returns the empty text.
    pub fn new(alloc: Global) -> Text {
        Text {
            bytes: Vec::new(alloc),
            is_cut: false,
        }
    }

    /// Adds bytes.
    pub fn add(&mut self, bytes: &[u8]) {
        if self.bytes.extend_from_slice(bytes).is_err() {
            self.is_cut = true;
        }
    }

    /// Adds a number in decimal digits.
    pub fn add_number(&mut self, number: u128) {
        let mut digits = [b'0'; 40];
        let mut count = 0usize;
        let mut left = number;
        for digit in &mut digits {
            if left == 0 && count != 0 {
                break;
            }
            *digit = b'0' + (left % 10) as u8;
            left /= 10;
            count = count.saturating_add(1);
        }
        for digit in digits.iter().take(count).rev() {
            self.add(&[*digit]);
        }
    }

    /// Adds `yes` or `no`.
    pub fn add_answer(&mut self, is_so: bool) {
        self.add(if is_so {
            b"yes".as_slice()
        } else {
            b"no".as_slice()
        });
    }

    /// Returns the bytes; `None` if an allocation failed.
    pub fn whole(&self) -> Option<&[u8]> {
        if self.is_cut {
            None
        } else {
            Some(self.bytes.as_slice())
        }
    }
}
