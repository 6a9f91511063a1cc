//! Short texts that are made once and written many times.

ghost use Rattle.std.specs.Prelude.{◌≡◌, ◌≤◌, ◌++◌, codes, decimal};
ghost use Rattle.rip_wire.specs.Prefix.{prefix_text};
ghost use Rattle.rip_report.specs.Texts.{AreOfMetrics, AreOfPrefixes, AreTexts, text_of};
ghost use Rattle.rip_report.specs.Written.{line};

mod text;

pub(crate) use self::text::Text;
use crate::output::PREFIX_BYTES;
use itoa::Buffer;
use rip_table::{MOST_PREFIXES, Table};
use rip_wire::Prefix;

/// Room for each metric at its number, up to 16.
pub(crate) const METRICS: usize = 17;

/// Room for a prefix or a number, and a byte behind it.
pub(crate) const SHORT_BYTES: usize = 24;

/// Room for the names of a router and a link, and a byte behind each.
pub(crate) const FRONT_BYTES: usize = 66;

/// The texts of a table's prefixes, by their numbers, and of all metrics.
#[derive(Drop)]
pub(crate) struct Texts {
    pub(crate) prefixes: [Text<SHORT_BYTES>; MOST_PREFIXES],
    pub(crate) metrics: [Text<SHORT_BYTES>; METRICS],
}

impl Texts {
    /// The texts for a table.
    pub(crate) fn of<T: Table>(table: &T) -> Texts
        ensures { AreTexts (T.state table.now).prefixes result }
    {
        let mut texts = Texts {
            prefixes: [Text::new(); MOST_PREFIXES],
            metrics: [Text::new(); METRICS],
        };
        make_prefixes(table, &mut texts.prefixes);
        make_metrics(&mut texts.metrics);
        texts
    }
}

/// A prefix and a blank.
fn of_prefix(prefix: Prefix) -> Text<SHORT_BYTES>
    ensures { text_of result ≡ prefix_text prefix ++ codes " " }
{
    let mut text = Text::new();
    text.push(prefix.encode(&mut [0; PREFIX_BYTES]));
    text.push(" ");
    text
}

/// A metric, by its number, and the end of its line.
fn of_metric(number: usize) -> Text<SHORT_BYTES>
    requires { number ≤ 16 }
    ensures { text_of result ≡ line (decimal number) }
{
    let mut text = Text::new();
    text.push(Buffer::new().format(number));
    text.push("\n");
    text
}

/// Makes the texts of a table's prefixes.
fn make_prefixes<T: Table>(table: &T, texts: &mut [Text<SHORT_BYTES>; MOST_PREFIXES])
    ensures { AreOfPrefixes (T.state table.now).prefixes texts.new }
{
    for k in 0..table.prefix_count() {
        texts[k] = of_prefix(table.prefix(k));
    }
}

/// Makes the texts of all metrics.
fn make_metrics(texts: &mut [Text<SHORT_BYTES>; METRICS])
    ensures { AreOfMetrics texts.new }
{
    for number in 1..METRICS {
        texts[number] = of_metric(number);
    }
}
