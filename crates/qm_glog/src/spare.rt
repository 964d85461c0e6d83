// What an append does with memory that was reserved for it.
ghost use Rattle.std.specs.Prelude.{◌≡◌, ◌+◌, ◌<◌, ◌≤◌, ◌^◌, [], ◌∷◌, ◌++◌, length, vec_capacity};
ghost use Rattle.qm_glog.specs.Records.{behind_gate};

// Spells a record behind its gate, and a closed gate behind it.
#[tactic(auto, unfolding(crate::specs::Records::behind_gate))]
pub(crate) fn spell(buffer: &mut Vec<u8>, body: &[u8])
    requires room { length body.now + 5 ≤ vec_capacity buffer.old }
    requires small { length body.now < 2 ^ 32 }
    ensures text { buffer.new.items ≡ behind_gate body.now ++ 0 ∷ [] }
    ensures capacity { vec_capacity buffer.old ≤ vec_capacity buffer.new }
{
    buffer.clear();
    let length = body.len() as u32;
    buffer.extend_from_slice(&length.to_le_bytes()).unwrap();
    buffer.extend_from_slice(body).unwrap();
    buffer.push_reserved(0);
}
