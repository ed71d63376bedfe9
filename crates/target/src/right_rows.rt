// The row of each right in an hour: members see their rights one by one, and the rows of an owner add up to its target.
ghost use Rattle.std.specs.Prelude.{◌≡◌, false, length};
ghost use Rattle.numbers.specs.Lists.{list_below};
ghost use Rattle.rights.specs.Layout.{record_count};
ghost use Rattle.rights.specs.Faults.{file_refusal};
ghost use Rattle.target.specs.Rows.{row_lines, rows_refusal};
ghost use Rattle.target.specs.Target.{any_wild, call_answer, row_at};

use crate::PricedRight;
use calendar::OperatingHour;
use numbers::Refusal;
use rights::Words;

// The row call: each record's cents in an hour, or a refusal that leaves the lines as they were. The whole file is looked at before the
// first row is written.
pub fn rows(
    year: u64,
    rights: &[u8],
    prices: &[i32],
    hour: u64,
    lines: &mut [i64],
) -> Result<(), Refusal>
    ensures value { result ≡ call_answer year rights.now prices.now (rows_refusal year rights.now prices.now hour (length lines.old)) }
    ensures lines_after { lines.new ≡ row_lines year rights.now prices.now hour lines.old }
{
    let records = rights.len() / rights::RECORD_BYTES;
    let hour = crate::looked_at(year, rights, prices, hour, lines.len() != records)?;
    rights::file_fault(year, rights, prices.len())?;
    write_rows(year, rights, prices, hour, lines);
    Ok(())
}

// Writes the row of each record of a file without a fault, by the record's number, which is the place of its line too. The file was looked at
// before, so that each right is cut from its words: what a read gives, a `Result` of a right, would go through memory.
fn write_rows(year: u64, rights: &[u8], prices: &[i32], hour: OperatingHour, lines: &mut [i64])
    requires { (file_refusal year (length prices.now) rights.now ≡ 0) × (any_wild prices.now ≡ false) × (length lines.old ≡ record_count rights.now) }
    ensures { lines.new ≡ list_below (row_at rights.now prices.now hour) (record_count rights.now) }
{
    let (records, _) = rights.as_chunks::<{ rights::RECORD_BYTES }>();
    for (number, line) in lines.iter_mut().enumerate() {
        let right = Words::from_le_bytes(&records[number]).cut();
        *line = PricedRight { right, prices }.row_cents(hour);
    }
}
