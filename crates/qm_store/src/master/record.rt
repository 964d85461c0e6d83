// Master records and their bytes.
ghost use Rattle.std.specs.Prelude.{◌≡◌, ◌+◌, ◌≤◌, length, drop, take, IfSome};
ghost use Rattle.std.specs.Int.{w64, to_le_bytes, from_le_bytes};
ghost use Rattle.qm_history.specs.Master.{master_text};
ghost use Rattle.qm_store.specs.MasterRecords.{record_of, IsReading, HasWidth};

/// A record of the master file.
#[derive(Clone, Copy, Debug, PartialEq, Eq)]
pub enum MasterRecord {
    /// The master was made, with the cap of a queue file in bytes and the live queue file, 1 or 2.
    Found { cap: u64, file: u8 },
    /// An epoch began, with this node as manager, by its place in the cluster.
    Epoch { epoch: u64, node: u8 },
    /// In the last epoch this queue file, 1 or 2, became the live one.
    Live { file: u8, epoch: u64 },
}

/// How many bytes a record has, whatever it says.
pub const MASTER_RECORD_BYTES: usize = 11;

// The version with which each record begins, and the numbers of the three records.
const VERSION: u8 = 1;

const FOUND: u8 = 64;

const EPOCH: u8 = 65;

const LIVE: u8 = 66;

/// The bytes of a record: its version, its number, and its fields, numbers with the lowest byte first.
pub fn write_master(said: MasterRecord) -> [u8; 11]
    ensures { result ≡ master_text (record_of said) }
{
    match said {
        MasterRecord::Found { cap, file } => {
            let b = cap.to_le_bytes();
            [
                VERSION, FOUND, b[0], b[1], b[2], b[3], b[4], b[5], b[6], b[7], file,
            ]
        }
        MasterRecord::Epoch { epoch, node } => {
            let b = epoch.to_le_bytes();
            [
                VERSION, EPOCH, b[0], b[1], b[2], b[3], b[4], b[5], b[6], b[7], node,
            ]
        }
        MasterRecord::Live { file, epoch } => {
            let b = epoch.to_le_bytes();
            [
                VERSION, LIVE, file, b[0], b[1], b[2], b[3], b[4], b[5], b[6], b[7],
            ]
        }
    }
}

// The number that eight bytes at a place spell.
fn number_at(bytes: &[u8], at: usize) -> u64
    requires { at + 8 ≤ length bytes.now }
    ensures { to_le_bytes w64 result ≡ take 8 (drop at bytes.now) }
{
    u64::from_le_bytes([
        bytes[at],
        bytes[at + 1],
        bytes[at + 2],
        bytes[at + 3],
        bytes[at + 4],
        bytes[at + 5],
        bytes[at + 6],
        bytes[at + 7],
    ])
}

/// The record that the bytes spell. There is none exactly where they spell none.
pub fn read_master(body: &[u8]) -> Option<MasterRecord>
    ensures spelled { IsReading body.now result }
    ensures wide { IfSome result HasWidth }
{
    if body.len() != MASTER_RECORD_BYTES || body[0] != VERSION {
        return None;
    }
    match body[1] {
        FOUND => Some(MasterRecord::Found {
            cap: number_at(body, 2),
            file: body[10],
        }),
        EPOCH => Some(MasterRecord::Epoch {
            epoch: number_at(body, 2),
            node: body[10],
        }),
        LIVE => Some(MasterRecord::Live {
            file: body[2],
            epoch: number_at(body, 3),
        }),
        _ => None,
    }
}
