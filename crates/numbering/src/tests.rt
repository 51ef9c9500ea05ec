// Small jobs, numbered and judged.
use crate::flow::numbering_flow;
use crate::number::number;
use index::step::Step;
use job::closed_job;
use series::judge::{JudgeRefusal, UNSIGNED};
use series::one_series::OneSeries;
use series::records::{PartRecord, SignRecord};
use sift::memory::Memory;
use std::test::Fail;

fn part(mask: u64, standing: u8) -> PartRecord {
    PartRecord { mask, standing }
}

// Two parts and two signs; each sign is used at most once.
fn small(parts: &[PartRecord; 2]) -> Result<OneSeries, Fail> {
    let sign = SignRecord { least: 0, most: 1 };
    let mut series = OneSeries::new();
    series.load(2, 2, parts, &[sign, sign])?;
    Ok(series)
}

// The answer, a refusal by its number, and the bytes afterwards; the third byte is not the job's.
fn numbered(series: OneSeries, lo: u16) -> Result<(Result<(), u8>, [u8; 3]), Fail> {
    let job = closed_job(series, lo, 64)?;
    let mut bytes = [77; 3];
    let answer = number(
        &job,
        &mut bytes,
        &mut Memory {
            flow: &mut [0; 9],
            verdicts: &mut [0; 9],
            bottleneck: &mut [0; 6],
            marks: &mut [0; 6],
            nodes: &mut [0; 6],
            steps: &mut [Step::default(); 6],
        },
    );
    Ok((answer.map_err(|refusal| refusal.number()), bytes))
}

// Each row: the parts, the least total, the answer and the bytes. A numbering is then judged.
#[test]
fn small_jobs_are_numbered_lawfully(rt: HostRuntime) -> Result<(), Fail> {
    let rows = [
        ([part(3, 2), part(1, 2)], 0, Ok(()), [1, 0, 77]),
        ([part(1, 2), part(1, 2)], 0, Err(20), [77, 77, 77]),
        ([part(1, 2), part(3, 0)], 0, Ok(()), [0, UNSIGNED, 77]),
        ([part(2, 1), part(2, 1)], 2, Err(20), [77, 77, 77]),
    ];
    for (parts, lo, answer, bytes) in rows {
        assert_eq!(rt; numbered(small(&parts)?, lo)?, (answer, bytes));
        if answer.is_ok() {
            assert_eq!(rt; small(&parts)?.judge(lo, 64, &bytes), Ok(()));
        }
    }
    Ok(())
}

#[test]
fn a_numbering_is_turned_into_its_flow(rt: HostRuntime) -> Result<(), Fail> {
    let series = small(&[part(3, 2), part(1, 2)])?;
    let mut flow = [8; 10];
    assert_eq!(rt; numbering_flow(&series, 0, 64, &[1, 0], &mut flow), Ok(()));
    assert_eq!(rt; flow, [1, 1, 0, 1, 1, 0, 1, 1, 2, 8]);
    assert_eq!(rt;
        numbering_flow(&series, 0, 64, &[0, 0], &mut flow),
        Err(JudgeRefusal::Sign(0))
    );
    assert_eq!(rt;
        numbering_flow(&series, 0, 64, &[1], &mut flow),
        Err(JudgeRefusal::Short)
    );
    assert_eq!(rt; flow, [1, 1, 0, 1, 1, 0, 1, 1, 2, 8]);
    Ok(())
}
