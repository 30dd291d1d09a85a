// A card as text: its bytes, with what each part means.
use crate::list::BytesText;
use std::fmt;

// A card; bytes past its records are not shown.
#[derive(Drop)]
pub struct CardText<'a> {
    pub bytes: &'a [u8],
}

// A record's number, and its four bytes.
#[derive(Drop)]
struct RecordText<'a> {
    number: usize,
    bytes: &'a [u8],
}

impl fmt::Display for RecordText<'_> {
    fn fmt<W: fmt::Write>(&self, f: &mut fmt::Formatter<W>) -> fmt::Result {
        let number = self.number;
        let shown = BytesText { bytes: self.bytes };
        let [power, low, high, next] = *self.bytes else {
            return writeln!(f, "  {shown}: no whole record");
        };
        let code = u16::from_le_bytes([low, high]);
        write!(
            f,
            "  {shown}: record {number}, code {code} at power {power}, "
        )?;
        match next {
            0 => writeln!(f, "the last of its generator"),
            _ => writeln!(f, "followed by record {next}"),
        }
    }
}

impl fmt::Display for CardText<'_> {
    fn fmt<W: fmt::Write>(&self, f: &mut fmt::Formatter<W>) -> fmt::Result {
        let [kind, n, m, rest @ ..] = self.bytes else {
            return writeln!(f, "  no whole card");
        };
        writeln!(f, "  {kind}: the field's kind")?;
        writeln!(f, "  {n}: the number of generators")?;
        writeln!(f, "  {m}: the number of records")?;
        let (heads, records) = rest.split_at(usize::from(*n).min(rest.len()));
        let shown = BytesText { bytes: heads };
        writeln!(f, "  {shown}: the first record of each generator")?;
        // By four: the bytes that `RecordText` takes apart.
        for (i, bytes) in records.chunks(4).take(usize::from(*m)).enumerate() {
            let number = i + 1;
            write!(f, "{}", RecordText { number, bytes })?;
        }
        Ok(())
    }
}
