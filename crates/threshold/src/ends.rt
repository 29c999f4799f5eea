// Where the rounds begin (document 01: "Lowest and highest levels present are g and G. The start is
// 128, or g if 128 < g, or G if 128 > G"). That some level is counted is asked by a `requires` here and at
// a round: a type of its own would make `two_means` say its numbers 11 and 12 in a constructor, and is no
// plainer.
ghost use Rattle.std.specs.Prelude.{◌≡◌, ◌<◌};
ghost use Rattle.threshold.specs.Histogram.{total};
ghost use Rattle.threshold.specs.TwoMeans.{level, lowest as lowest_of, highest as highest_of, start as start_of};

// The start: the usual one, or the nearest end of the levels present.
pub(crate) fn start(histogram: &[u32], usual: usize) -> usize
    requires { 0 < total histogram.now }
    ensures { level result ≡ start_of usual histogram.now }
{
    usual.clamp(lowest(histogram), highest(histogram))
}

// The total is not 0, so some level is counted.
fn lowest(histogram: &[u32]) -> usize
    requires { 0 < total histogram.now }
    ensures { result ≡ lowest_of histogram.now }
{
    histogram.iter().position(|&count| count != 0).unwrap()
}

fn highest(histogram: &[u32]) -> usize
    requires { 0 < total histogram.now }
    ensures { result ≡ highest_of histogram.now }
{
    histogram.iter().rposition(|&count| count != 0).unwrap()
}
