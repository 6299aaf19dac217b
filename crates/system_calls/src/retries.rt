//! Repeats a call that a signal interrupts.
ghost use Rattle.std.specs.Prelude.{◌≡◌};
ghost use Rattle.std.specs.Fn.{Called};
ghost use Rattle.system_calls.specs.Retries.{IsRetried, was_interrupted};
ghost use Rattle.system_calls.specs.SystemCalls.{is_interruption};

use std::io;
use std::io::ErrorKind;

/// Returns whether an error of this kind means that a signal interrupted the call.
pub fn is_interruption(kind: ErrorKind) -> bool
    ensures { result ≡ is_interruption kind }
{
    match kind {
        ErrorKind::Interrupted => true,
        _ => false,
    }
}

fn was_interrupted(answer: &io::Result<usize>) -> bool
    ensures { result ≡ was_interrupted answer.now }
{
    match answer {
        Ok(_) => false,
        Err(error) => is_interruption(error.kind()),
    }
}

/// Repeats a call while a signal interrupts it, and returns its first other answer. Returns `None` if 2^64-1
/// attempts were interrupted.
pub fn retry<F: FnMut() -> io::Result<usize>>(call: &mut F) -> Option<io::Result<usize>>
    requires { F.IsAlwaysCallable call.old }
    ensures { IsRetried (λ f answer g. Called F.FnMut f tt answer g) call.old result call.new }
{
    for attempts in 0..u64::MAX {
        let answer = call();
        if !was_interrupted(&answer) {
            return Some(answer);
        }
    }
    None
}
