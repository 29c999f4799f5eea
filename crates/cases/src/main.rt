// The program `cases`: what a student can work by hand (document 01), those cases that the document
// does not mark, run. (Those that it marks stand in specs/Cases.antt, and proofs/Worked.antt proves
// them.) A line is what the judge is given, N, M, m and D, and what comes back, the number and q.
#![tactic(auto)]

use units::Eighths;

// What the judge is given, N, M, m and D, case by case.
const CASES: [(u64, u64, u64, u64); 9] = [
    // "m = 7,392, D = 655,360,000 gives 0 and 1,000; D one more gives 9 and 999"
    (256, 25_600, 7_392, 655_360_001),
    // "M = 21,759 or 31,361 is 6; 21,760 and 31,360 are not"
    (256, 21_759, 6_400, 419_430_400),
    (256, 31_361, 6_400, 419_430_400),
    (256, 21_760, 6_400, 419_430_400),
    (256, 31_360, 6_400, 419_430_400),
    // "m = 1,279 or 10,241 is 7; 1,280 and 10,240 are not"
    (256, 25_600, 1_279, 419_430_400),
    (256, 25_600, 10_241, 419_430_400),
    (256, 25_600, 1_280, 419_430_400),
    (256, 25_600, 10_240, 419_430_400),
];

// One case, as a line. Whether it was written is not asked: the output is compared with what it must
// be, and a part that is missing shows there.
fn judged<P: Print>(rt: &P, count: u64, bright: u64, dark: u64, spread: u64) {
    let verdict = judge::judge(count, Eighths::of(bright), Eighths::of(dark), spread);
    let (number, ratio) = judge::numbers(verdict);
    let _ = println!(rt; "{count} {bright} {dark} {spread} {number} {ratio}");
}

fn main(rt: HostRuntime) {
    for (count, bright, dark, spread) in CASES {
        judged(&rt, count, bright, dark, spread);
    }
}
