// The tokens of a line. Each reader takes its token off the front of `left` and says what is left then;
// where the token is missing, it gives `left` back.
ghost use Rattle.std.specs.Prelude.{◌≡◌, ◌+◌, ◌<◌, ◌∷◌, take, MatchResult};
ghost use Rattle.std.specs.List.{prefix_len};
ghost use Rattle.forms.specs.Written.{identifier_byte};
ghost use Rattle.forms.specs.Fronts.{NotFirst, Outside, digit_byte};
ghost use Rattle.ballot_line.specs.Tokens.{TakesNumber, NoNumber, TakesIdentifier, NoIdentifier};

// What was taken off the front of a text, and what is left.
#[derive(Clone, Copy)]
pub(crate) struct Taken<'t, T> {
    pub(crate) value: T,
    pub(crate) rest: &'t [u8],
}

// What was taken, or the text from where its form breaks.
pub(crate) type Taking<'t, T> = Result<Taken<'t, T>, &'t [u8]>;

const MOST_BYTES: usize = 16;

// The least number of nine digits: one below it may have a digit more.
const NINE_DIGITS: u32 = 100_000_000;

// Takes the byte `byte` off the front.
pub(crate) fn expect<'t>(left: &'t [u8], byte: u8) -> Result<&'t [u8], &'t [u8]>
    ensures { MatchResult result (λ rest. left.now ≡ byte ∷ rest.now) (λ rest. (rest.now ≡ left.now) × NotFirst byte left.now) }
{
    match left {
        [first, rest @ ..] if *first == byte => Ok(rest),
        _ => Err(left),
    }
}

// One digit, by its value.
fn digit<'t>(left: &'t [u8]) -> Taking<'t, u32>
    ensures { MatchResult result (λ n. (n.value < 10) × (left.now ≡ (48 + n.value) ∷ n.rest.now)) (λ rest. (rest.now ≡ left.now) × Outside digit_byte left.now) }
{
    match left {
        [first, rest @ ..] if first.is_ascii_digit() => Ok(Taken {
            value: u32::from(*first - b'0'),
            rest,
        }),
        _ => Err(left),
    }
}

// The longest number: of at most nine digits, and with no zero in front of others.
pub(crate) fn number<'t>(left: &'t [u8]) -> Taking<'t, u32>
    ensures { MatchResult result (λ n. TakesNumber left.now n.value n.rest.now) (λ rest. NoNumber left.now rest.now) }
{
    let mut number = digit(left)?;
    if number.value == 0 {
        return Ok(number);
    }
    // A loop, since the value so far says whether another digit may follow.
    while number.value < NINE_DIGITS {
        let Ok(last) = digit(number.rest) else {
            return Ok(number);
        };
        number = Taken {
            value: number.value * 10 + last.value,
            rest: last.rest,
        };
    }
    Ok(number)
}

fn is_identifier_byte(b: u8) -> bool
    ensures { result ≡ identifier_byte b }
{
    b.is_ascii_uppercase() || b.is_ascii_digit() || b == b'-'
}

// How many bytes the longest identifier in front of `left` has, 0 where there is none.
fn identifier_len(left: &[u8]) -> usize
    ensures { result ≡ prefix_len identifier_byte (take 16 left.now) }
{
    left.iter()
        .take(MOST_BYTES)
        .take_while(|b| is_identifier_byte(**b))
        .count()
}

// The longest identifier, of at most sixteen bytes.
pub(crate) fn identifier<'t>(left: &'t [u8]) -> Taking<'t, &'t [u8]>
    ensures { MatchResult result (λ i. TakesIdentifier left.now i.value.now i.rest.now) (λ rest. NoIdentifier left.now rest.now) }
{
    let len = identifier_len(left);
    if len == 0 {
        return Err(left);
    }
    let (value, rest) = left.split_at(len);
    Ok(Taken { value, rest })
}
