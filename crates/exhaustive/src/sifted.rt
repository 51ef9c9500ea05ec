// What a sift tells and writes, in memory that is longer than is needed; what it writes its answer into holds nines before.
use index::step::Step;
use network::Network;
use sift::memory::Memory;
use sift::refusal::SiftRefusal;
use sift::sift::sift;

const LINES: usize = 64;

const NODES: usize = 16;

#[derive(Drop)]
pub struct Sifted {
    pub answer: Result<(), SiftRefusal>,
    pub flow: [u32; LINES],
    pub verdicts: [u8; LINES],
    pub bottleneck: [u8; NODES],
}

impl Sifted {
    pub fn of<N: Network>(network: &N) -> Sifted {
        let mut flow = [9; LINES];
        let mut verdicts = [9; LINES];
        let mut bottleneck = [9; NODES];
        let mut memory = Memory {
            flow: &mut flow,
            verdicts: &mut verdicts,
            bottleneck: &mut bottleneck,
            marks: &mut [0; NODES],
            nodes: &mut [0; NODES],
            steps: &mut [Step::default(); NODES],
        };
        let answer = sift(network, &mut memory);
        Sifted {
            answer,
            flow,
            verdicts,
            bottleneck,
        }
    }
}
