//! What an effort allows.

use roster_plan::{Means, Phase};

#[test]
fn each_effort_allows_as_many_sets_more(rt: HostRuntime) {
    assert!(rt; Means::of_effort(0, 1).most_sets == 4_096);
    assert!(rt; Means::of_effort(5, 1).most_sets == 6 * 4_096);
    assert!(rt; Means::of_effort(9, 1).most_sets == 10 * 4_096);
    assert!(rt; Means::of_effort(10, 1).most_sets == Means::of_effort(9, 1).most_sets);
}

#[test]
fn means_keep_what_they_are_given(rt: HostRuntime) {
    let means = Means::of_effort(7, 3);
    assert!(rt; means.effort == 7);
    assert!(rt; means.workers == 3);
}

#[test]
fn phases_are_told_apart(rt: HostRuntime) {
    let all = [
        Phase::Start,
        Phase::Sets,
        Phase::Changes,
        Phase::Neighbourhoods,
        Phase::Prices,
        Phase::Columns,
        Phase::Gap,
    ];
    for (i, first) in all.iter().enumerate() {
        for (j, second) in all.iter().enumerate() {
            assert!(rt; (first == second) == (i == j));
        }
    }
}
