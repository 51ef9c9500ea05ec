// Examples at the edges of each rule.
use crate::judge::{JudgeRefusal, UNSIGNED};
use crate::load::LoadRefusal;
use crate::one_series::OneSeries;
use crate::records::{PartRecord, SignRecord};
use network::Network;
use network::legend::Legend;
use network::role::Role;

const PART: PartRecord = PartRecord {
    mask: 0,
    standing: 1,
};

const SIGN: SignRecord = SignRecord { least: 0, most: 64 };

#[test]
fn an_empty_job_has_two_nodes_and_no_lines(rt: HostRuntime) {
    let job = OneSeries::new();
    assert_eq!(rt; job.nodes(), 2);
    assert_eq!(rt; job.lines(), 0);
    assert_eq!(rt; job.line(0), None);
    assert_eq!(rt; job.role(0), Role::Other);
    assert_eq!(rt; job.part_line(0), None);
    assert_eq!(rt; job.judge(0, 0, &[]), Ok(()));
    assert_eq!(rt; job.judge(1, 64, &[]), Err(JudgeRefusal::Total(0)));
}

// Each row: parts, signs, and what loading blank records of that number answers.
#[test]
fn sizes_are_bounded(rt: HostRuntime) {
    let rows = [
        (0, 0, Ok(())),
        (64, 64, Ok(())),
        (65, 0, Err(LoadRefusal::TooMany)),
        (0, 65, Err(LoadRefusal::TooMany)),
        (66, 65, Err(LoadRefusal::Short)),
        (65, 66, Err(LoadRefusal::Short)),
    ];
    for (n, m, answer) in rows {
        let mut job = OneSeries::new();
        assert_eq!(rt; job.load(n, m, &[PART; 65], &[SIGN; 65]), answer);
    }
}

// Each row: a part record beside two signs, a sign record, and the answer.
#[test]
fn records_are_checked_in_order(rt: HostRuntime) {
    let rows = [
        (3, 2, 0, 64, Ok(())),
        (4, 2, 0, 64, Err(LoadRefusal::Mask(1))),
        (4, 3, 65, 64, Err(LoadRefusal::Standing(1))),
        (0, 0, 2, 1, Err(LoadRefusal::Sign(1))),
        (0, 1, 0, 65, Err(LoadRefusal::Sign(1))),
    ];
    for (mask, standing, least, most, answer) in rows {
        let mut job = OneSeries::new();
        let parts = [PART, PartRecord { mask, standing }];
        assert_eq!(rt;
            job.load(2, 2, &parts, &[SIGN, SignRecord { least, most }]),
            answer
        );
    }
}

#[test]
fn lines_stand_in_their_places(rt: HostRuntime) {
    let mut job = OneSeries::new();
    let parts = [
        PartRecord {
            mask: 2,
            standing: 0,
        },
        PartRecord {
            mask: 1,
            standing: 2,
        },
    ];
    let signs = [SignRecord { least: 1, most: 2 }, SIGN, SIGN];
    assert_eq!(rt; job.load(2, 3, &parts, &signs), Ok(()));
    assert_eq!(rt; job.load(2, 3, &parts, &[]), Err(LoadRefusal::Short));
    assert_eq!(rt; job.lines(), 11);
    let rows = [
        (0, Some((0, 1, 0, 0)), Role::Standing(0)),
        (1, Some((0, 2, 1, 1)), Role::Standing(1)),
        (3, Some((1, 4, 0, 1)), Role::Pair(0, 1)),
        (5, Some((2, 3, 0, 1)), Role::Pair(1, 0)),
        (6, Some((2, 4, 0, 0)), Role::Pair(1, 1)),
        (8, Some((3, 6, 1, 2)), Role::Count(0)),
        (11, None, Role::Other),
    ];
    for (place, line, role) in rows {
        assert_eq!(rt; job.line(place), line);
        assert_eq!(rt; job.role(place), role);
    }
    assert_eq!(rt; job.pair_line(1, 2), Some(7));
    assert_eq!(rt; job.pair_line(1, 3), None);
}

// Each row: bounds of the total, three bytes of which two count, and the answer. The first part is required, the second left out.
#[test]
fn the_first_broken_rule_is_told(rt: HostRuntime) {
    let mut job = OneSeries::new();
    let parts = [
        PartRecord {
            mask: 1,
            standing: 2,
        },
        PartRecord {
            mask: 3,
            standing: 0,
        },
    ];
    let signs = [
        SignRecord { least: 0, most: 1 },
        SignRecord { least: 0, most: 1 },
    ];
    assert_eq!(rt; job.load(2, 2, &parts, &signs), Ok(()));
    let rows = [
        (1, 1, [0, UNSIGNED, 7], Ok(())),
        (1, 1, [1, UNSIGNED, 0], Err(JudgeRefusal::Part(0))),
        (1, 1, [2, UNSIGNED, 0], Err(JudgeRefusal::Part(0))),
        (1, 1, [UNSIGNED, UNSIGNED, 0], Err(JudgeRefusal::Part(0))),
        (1, 1, [0, 1, 0], Err(JudgeRefusal::Part(1))),
        (2, 64, [0, UNSIGNED, 1], Err(JudgeRefusal::Total(1))),
        (1, 0, [0, UNSIGNED, 1], Err(JudgeRefusal::Total(1))),
    ];
    for (lo, hi, bytes, answer) in rows {
        assert_eq!(rt; job.judge(lo, hi, &bytes), answer);
    }
    assert_eq!(rt; job.judge(0, 64, &[0]), Err(JudgeRefusal::Short));
}
