// The sequence on the wall (requests K4 and K7): `wall csv` and `wall page`.
ghost use Rattle.std.specs.Prelude.{◌≡◌, length};
ghost use Rattle.chart.specs.Csv.{csv_text};
ghost use Rattle.chart.specs.Page.{page_text};

use crate::images::Shown;
use std::io::Write;
use texts::Line;
use words::Streams;
use words::rooms::{LARGE, zeros};

// Room for the CSV, which has more bytes than a large buffer.
const FOR_CSV: usize = 69632;

// The name that the program goes by on standard error.
const NAME: [u8; 4] = *b"wall";

// `wall csv`: the 1,024 entries as CSV.
pub fn csv<R, W: Write, E: Write>(streams: &mut Streams<R, W, E>) -> Shown
    ensures { result.put ≡ length csv_text }
{
    let mut out = zeros::<FOR_CSV>();
    let mut text = Line::new(&mut out);
    chart::csv::put_table(&mut text);
    let put = text.at;
    Shown {
        well: words::put(streams, &NAME, &out, put),
        put,
    }
}

// `wall page`: a page to print. (`csv` with another room and another text: as one function with these as parameters they would be no plainer.)
pub fn page<R, W: Write, E: Write>(streams: &mut Streams<R, W, E>) -> Shown
    ensures { result.put ≡ length page_text }
{
    let mut out = zeros::<LARGE>();
    let mut text = Line::new(&mut out);
    chart::page::put_page(&mut text);
    let put = text.at;
    Shown {
        well: words::put(streams, &NAME, &out, put),
        put,
    }
}
