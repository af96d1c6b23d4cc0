//! Filing: what the trailer says, and whether the parts lie where it says.
ghost use Rattle.std.specs.Prelude.{◌≡◌, ◌+◌, ◌*◌, ◌<◌, ◌≤◌, length, drop, Some, None, MatchResult};
ghost use Rattle.std.specs.Simd.{first_chunks};
ghost use Rattle.sheet.specs.Faults.{filing_refusal};
ghost use Rattle.sheet.specs.Files.{half_at, word_at, constant_distance_of, instruction_distance_of, constant_count, instruction_count};
ghost use Rattle.sheet.specs.Filing.{filing, trailer_refusal};

use crate::faults::FilingFault;

// The bytes of the trailer, and the greatest length of a file.
const TRAILER: usize = 12;

const LONGEST: usize = 32768;

// The greatest counts.
const CONSTANTS: u16 = 64;

const INSTRUCTIONS: u16 = 4096;

/// How far before the end the parts of a file begin, and how many there are.
#[derive(Clone, Copy)]
pub struct Trailer {
    pub constant_distance: u32,
    pub instruction_distance: u32,
    pub constants: u16,
    pub instructions: u16,
}

impl Trailer {
    fn from_le_bytes(bytes: [u8; TRAILER]) -> Trailer
        ensures constant_distance { result.constant_distance ≡ word_at bytes 0 }
        ensures instruction_distance { result.instruction_distance ≡ word_at bytes 4 }
        ensures constants { result.constants ≡ half_at bytes 8 }
        ensures instructions { result.instructions ≡ half_at bytes 10 }
    {
        let [a, b, c, d, e, f, g, h, i, j, k, l] = bytes;
        Trailer {
            constant_distance: u32::from_le_bytes([a, b, c, d]),
            instruction_distance: u32::from_le_bytes([e, f, g, h]),
            constants: u16::from_le_bytes([i, j]),
            instructions: u16::from_le_bytes([k, l]),
        }
    }

    /// The trailer of a file, if its length is one that a file may have.
    #[tactic(auto, using(crate::proofs::Chunks::distances_read, crate::proofs::Chunks::counts_read))]
    pub fn of(bytes: &[u8]) -> Result<Trailer, FilingFault>
        ensures { MatchResult result (λ t. (12 ≤ length bytes.now) × (length bytes.now ≤ 32768) × (t.constant_distance ≡ constant_distance_of bytes.now) × (t.instruction_distance ≡ instruction_distance_of bytes.now) × (t.constants ≡ constant_count bytes.now) × (t.instructions ≡ instruction_count bytes.now)) (λ f. filing bytes.now ≡ Some (filing_refusal f)) }
    {
        match bytes.last_chunk::<TRAILER>() {
            Some(trailer) if bytes.len() <= LONGEST => Ok(Trailer::from_le_bytes(*trailer)),
            _ => Err(FilingFault::Length(bytes.len())),
        }
    }

    /// Whether the parts lie within a file of this length, in their order.
    pub fn check(self, length: usize) -> Result<(), FilingFault>
        ensures { MatchResult result (λ _. trailer_refusal length self.constant_distance self.instruction_distance self.constants self.instructions ≡ None) (λ f. trailer_refusal length self.constant_distance self.instruction_distance self.constants self.instructions ≡ Some (filing_refusal f)) }
    {
        if self.constants > CONSTANTS {
            return Err(FilingFault::ConstantCount);
        }
        if self.instructions < 1 || self.instructions > INSTRUCTIONS {
            return Err(FilingFault::InstructionCount);
        }
        // 64 bits, so that no sum of a distance wraps
        let constant_distance = self.constant_distance as usize;
        let instruction_distance = self.instruction_distance as usize;
        let constants = usize::from(self.constants);
        let instructions = usize::from(self.instructions);
        if instruction_distance < TRAILER + 2 * instructions {
            return Err(FilingFault::InstructionDistance);
        }
        if constant_distance < instruction_distance + 8 * constants || constant_distance > length {
            return Err(FilingFault::ConstantDistance);
        }
        Ok(())
    }
}

/// So many chunks, from the place on.
pub fn chunks_at<const N: usize>(bytes: &[u8], at: usize, count: usize) -> &[[u8; N]]
    requires nonzero { 0 < N }
    requires room { at + count * N ≤ length bytes.now }
    ensures { result.now ≡ first_chunks N count (drop at bytes.now) }
{
    let (chunks, _) = bytes[at..].as_chunks::<N>();
    &chunks[..count]
}
