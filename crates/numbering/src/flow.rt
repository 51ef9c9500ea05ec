// The call that turns a numbering into its flow.
ghost use Rattle.std.specs.Prelude.{◌≡◌, ℕ, ◌+◌, ◌*◌, ◌<◌, ◌≤◌, length};
ghost use Rattle.series.specs.Job.{job_of, part_count, line_count};
ghost use Rattle.series.specs.Numbering.{byte_at};
ghost use Rattle.solutions.specs.Carried.{carried, flow_of};
ghost use Rattle.solutions.specs.Solution.{set_of};
ghost use Rattle.numbering.specs.Flowed.{Flows, JobTold};

use network::Network;
use network::legend::Legend;
use network::role::Role;
use series::judge::{JudgeRefusal, UNSIGNED, signed, uses};
use series::one_series::OneSeries;

// The byte of a part; past the end of the numbering there is 0.
fn byte_of(bytes: &[u8], part: usize) -> u8
    ensures { result ≡ byte_at bytes.now part }
{
    bytes.get(part).copied().unwrap_or(0)
}

// What a numbering carries over a line, by what the line stands for.
fn amount(bytes: &[u8], role: Role) -> u32
    requires { length bytes.now ≤ 64 }
    ensures { result ≡ carried bytes.now role }
{
    match role {
        Role::Standing(part) => u32::from(byte_of(bytes, part) != UNSIGNED),
        Role::Pair(part, sign) => u32::from(usize::from(byte_of(bytes, part)) == sign),
        Role::Count(sign) => uses(bytes, sign) as u32,
        Role::Other => signed(bytes) as u32,
    }
}

// Writes the amount of each line.
fn write_amounts(series: &OneSeries, bytes: &[u8], flow: &mut [u32])
    requires bytes { length bytes.now ≡ part_count (job_of series.now) }
    requires flow { length flow.old ≡ line_count (job_of series.now) + 1 }
    ensures { flow.new ≡ flow_of (job_of series.now) bytes.now }
{
    for (place, carried) in flow.iter_mut().enumerate() {
        *carried = amount(bytes, series.role(place));
    }
}

// Writes the flow of a lawful numbering in the network of the whole job. Refused with no change where the numbering or the flow
// buffer is short, and else as the judge refuses the numbering.
pub fn numbering_flow(
    series: &OneSeries,
    lo: u16,
    hi: u16,
    numbering: &[u8],
    flow: &mut [u32],
) -> Result<(), JudgeRefusal>
    ensures flows { Flows (job_of series.now) lo hi numbering.now flow.old flow.new result }
    ensures told { JobTold (job_of series.now) lo hi }
{
    let parts = series.parts();
    let lines = series.lines() + 1;
    if numbering.len() < parts || flow.len() < lines {
        return Err(JudgeRefusal::Short);
    }
    series.judge(lo, hi, numbering)?;
    write_amounts(series, &numbering[..parts], &mut flow[..lines]);
    Ok(())
}
