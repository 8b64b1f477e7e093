// The soundness check of the inner crates, exported for the Rust tests and the benchmark.
#![tactic(auto)]

ghost use Rattle.std.specs.Prelude.{◌≡◌};
ghost use Rattle.layout.specs.Memory.{sound_memory};

// Whether lent memory begins with a sound window.
#[unsafe(no_mangle)]
pub extern "C" fn probe_sound(memory: &[u8]) -> bool
    ensures { result ≡ sound_memory memory.now }
{
    soundness::sound_memory(memory)
}
