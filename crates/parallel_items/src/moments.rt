ghost use Rattle.std.specs.Prelude.{◌≡◌};
ghost use Rattle.std.specs.Option.{option_map};
ghost use Rattle.page_parts.specs.Words.{least};

use page_base::Micros;

// The earlier one of two moments, either of which may be absent.
pub(crate) fn sooner(a: Option<Micros>, b: Option<Micros>) -> Option<Micros>
    ensures { option_map (λ m. m.0) result ≡ least (option_map (λ m. m.0) a) (option_map (λ m. m.0) b) }
{
    match (a, b) {
        (Some(a), Some(b)) => Some(if b < a { b } else { a }),
        (None, b) => b,
        (a, None) => a,
    }
}
