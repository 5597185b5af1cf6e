//! A card: its digits packed into ten bytes, its number, and the Luhn check of ISO/IEC 7812-1.
ghost use Rattle.std.specs.Prelude.{◌≡◌, ◌<◌, ◌≤◌, length, take, if◌then◌else◌, Some, None, nat_lt};
ghost use Rattle.std.specs.List.{count_by};
ghost use Rattle.std.specs.Option.{option_map};
ghost use Rattle.std.specs.Int.Digits.{AllBelowBase, digits_of, number_from_digits};
ghost use Rattle.wire.specs.Card.{weight, passes_luhn, halves, digits_in, card_shaped, only_fill, well_filled, is_card, pairs, filled, packed};
ghost use Rattle.wire.specs.Strip.{spread};

/// How many digits a card has at least.
const LEAST_DIGITS: usize = 13;

/// How many digits a card has at most.
pub const MOST_DIGITS: usize = 19;

/// A zero for each, and the halves of ten bytes.
const PADDED: usize = 39;

/// What fills the halves that no digit takes.
const FILL: u8 = 0xF;

/// What each digit counts where it is doubled: twice as much, by the sum of its two digits.
const DOUBLED: [u8; 10] = [0, 2, 4, 6, 8, 1, 3, 5, 7, 9];

/// What a digit counts, with so many digits after it.
fn luhn_weight(digit: u8, after: usize) -> u8
    requires { digit < 10 }
    ensures value { result ≡ weight after digit }
    ensures small { result < 10 }
{
    if after % 2 == 1 {
        DOUBLED[digit as usize]
    } else {
        digit
    }
}

/// Whether digits with zeros before them pass the Luhn check. The sum of nineteen fits a byte.
pub fn passes_luhn(digits: &[u8; MOST_DIGITS]) -> bool
    requires { AllBelowBase 10 digits.now }
    ensures { result ≡ passes_luhn digits.now }
{
    let mut sum = 0;
    for (i, digit) in digits.iter().enumerate() {
        sum += luhn_weight(*digit, MOST_DIGITS - 1 - i);
    }
    sum % 10 == 0
}

/// The first `count` halves at the end of nineteen places, with zeros before them, so that each
/// place counts in one way in the Luhn sum, whatever the count.
pub fn spread(all: &[u8; 20], count: usize) -> [u8; MOST_DIGITS]
    requires { count ≤ 19 }
    ensures { result ≡ spread (take count all.now) }
{
    let mut padded = [0; PADDED];
    padded[MOST_DIGITS..].copy_from_slice(all);
    let mut digits = [0; MOST_DIGITS];
    digits.copy_from_slice(&padded[count..count + MOST_DIGITS]);
    digits
}

/// The two halves of each byte, the higher first.
pub fn split(bytes: &[u8; 10]) -> [u8; 20]
    ensures { result ≡ halves bytes.now }
{
    let mut all = [0; 20];
    for (i, byte) in bytes.iter().enumerate() {
        all[2 * i] = *byte / 16;
        all[2 * i + 1] = *byte % 16;
    }
    all
}

/// How many of the halves are digits.
fn count_digits(all: &[u8; 20]) -> usize
    ensures { result ≡ count_by (λ half. nat_lt half 10) all.now }
{
    let mut count = 0;
    for half in all {
        if *half < 10 {
            count += 1;
        }
    }
    count
}

/// Whether a card may have these digits: 13 to 19, the first not 0.
fn card_shaped(digits: &[u8]) -> bool
    ensures { result ≡ card_shaped digits.now }
{
    (LEAST_DIGITS..=MOST_DIGITS).contains(&digits.len()) && digits[0] != 0
}

fn only_fill(rest: &[u8]) -> bool
    ensures { result ≡ only_fill rest.now }
{
    rest.iter().all(|half| *half == FILL)
}

/// The digits in the halves, if these are shaped as a card's and F fills the rest.
pub fn digits_of(all: &[u8; 20]) -> Option<&[u8]>
    ensures { option_map (λ digits. digits.now) result
        ≡ (if well_filled all.now then Some (digits_in all.now) else None) }
{
    let (digits, rest) = all.split_at(count_digits(all));
    if !card_shaped(digits) || !only_fill(rest) {
        return None;
    }
    Some(digits)
}

/// The number that these digits write, the highest first.
pub fn number(digits: &[u8]) -> u64
    requires few { length digits.now ≤ 19 }
    requires decimal { AllBelowBase 10 digits.now }
    ensures { result ≡ number_from_digits 10 digits.now }
{
    let mut value = 0;
    for digit in digits {
        value = value * 10 + u64::from(*digit);
    }
    value
}

fn count_decimal(number: u64) -> usize
    ensures { result ≡ length (digits_of 10 number) }
{
    number
        .checked_ilog10()
        .map_or(0, |power| power as usize + 1)
}

/// The digits of a number, so many, from the last to the first, and F after them.
fn fill(number: u64, count: usize) -> [u8; 20]
    requires counted { count ≡ length (digits_of 10 number) }
    requires few { count ≤ 19 }
    ensures { result ≡ filled (digits_of 10 number) }
{
    let mut all = [FILL; 20];
    let mut rest = number;
    for i in (0..count).rev() {
        all[i] = (rest % 10) as u8;
        rest /= 10;
    }
    all
}

/// Two halves to a byte.
fn join(all: &[u8; 20]) -> [u8; 10]
    requires { AllBelowBase 16 all.now }
    ensures { result ≡ pairs all.now }
{
    let mut bytes = [0; 10];
    for (i, byte) in bytes.iter_mut().enumerate() {
        *byte = all[2 * i] * 16 + all[2 * i + 1];
    }
    bytes
}

/// The ten bytes that hold this card number, or nothing where it is no card's.
pub fn pack(number: u64) -> Option<[u8; 10]>
    ensures { result ≡ (if is_card (digits_of 10 number) then Some (packed number) else None) }
{
    let count = count_decimal(number);
    if !(LEAST_DIGITS..=MOST_DIGITS).contains(&count) {
        return None;
    }
    let all = fill(number, count);
    if !passes_luhn(&spread(&all, count)) {
        return None;
    }
    Some(join(&all))
}
