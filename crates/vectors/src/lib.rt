//! Vectors from outside, composed by hand: cards known to pass and to fail the Luhn check, and one
//! message of each kind. A kind is a number here, as it stands in the bytes.
#![tactic(auto)]

#[cfg(test)]
mod tests {
    use std::process::Abort;
    use std::test::Fail;
    use wire::message::Fields;
    use wire::{open, write};

    // The purchase's name in every vector.
    const XID: [u8; 20] = [1; 20];

    const BLANK: Fields = Fields {
        kind: 0,
        request: 0,
        course: 9,
        xid: [0; 20],
        card: 0,
        amount: 0,
        batch: 0,
    };

    // A message of each kind, and its bytes.
    const MESSAGES: [(Fields, &[u8]); 9] = [
        (
            Fields {
                kind: 1,
                request: 1,
                xid: XID,
                card: 4_111_111_111_111_111,
                amount: 3000,
                ..BLANK
            },
            b"\xfc\x00\x01\x00\x00\x00\x00\x00\x00\x00\x01\x00\x00\x00\x09\
              \x01\x01\x01\x01\x01\x01\x01\x01\x01\x01\x01\x01\x01\x01\x01\x01\x01\x01\x01\x01\
              \x41\x11\x11\x11\x11\x11\x11\x11\xff\xff\x00\x00\x00\x00\x00\x00\x0b\xb8",
        ),
        (
            Fields {
                kind: 2,
                request: 2,
                xid: XID,
                amount: 2500,
                ..BLANK
            },
            b"\xf4\x00\x02\x00\x00\x00\x00\x00\x00\x00\x02\x00\x00\x00\x09\
              \x01\x01\x01\x01\x01\x01\x01\x01\x01\x01\x01\x01\x01\x01\x01\x01\x01\x01\x01\x01\
              \x00\x00\x00\x00\x00\x00\x09\xc4",
        ),
        (
            Fields {
                kind: 3,
                request: 3,
                xid: XID,
                amount: 2500,
                batch: 7,
                ..BLANK
            },
            b"\xf6\x00\x03\x00\x00\x00\x00\x00\x00\x00\x03\x00\x00\x00\x09\
              \x01\x01\x01\x01\x01\x01\x01\x01\x01\x01\x01\x01\x01\x01\x01\x01\x01\x01\x01\x01\
              \x00\x00\x00\x00\x00\x00\x09\xc4\x00\x00\x00\x07",
        ),
        (
            Fields {
                kind: 4,
                request: 4,
                xid: XID,
                batch: 7,
                ..BLANK
            },
            b"\xf2\x00\x04\x00\x00\x00\x00\x00\x00\x00\x04\x00\x00\x00\x09\
              \x01\x01\x01\x01\x01\x01\x01\x01\x01\x01\x01\x01\x01\x01\x01\x01\x01\x01\x01\x01\
              \x00\x00\x00\x07",
        ),
        (
            Fields {
                kind: 5,
                request: 5,
                xid: XID,
                amount: 2500,
                batch: 7,
                ..BLANK
            },
            b"\xf6\x00\x05\x00\x00\x00\x00\x00\x00\x00\x05\x00\x00\x00\x09\
              \x01\x01\x01\x01\x01\x01\x01\x01\x01\x01\x01\x01\x01\x01\x01\x01\x01\x01\x01\x01\
              \x00\x00\x00\x00\x00\x00\x09\xc4\x00\x00\x00\x07",
        ),
        (
            Fields {
                kind: 6,
                request: 6,
                xid: XID,
                amount: 2500,
                batch: 7,
                ..BLANK
            },
            b"\xf6\x00\x06\x00\x00\x00\x00\x00\x00\x00\x06\x00\x00\x00\x09\
              \x01\x01\x01\x01\x01\x01\x01\x01\x01\x01\x01\x01\x01\x01\x01\x01\x01\x01\x01\x01\
              \x00\x00\x00\x00\x00\x00\x09\xc4\x00\x00\x00\x07",
        ),
        (
            Fields {
                kind: 7,
                request: 7,
                batch: 7,
                ..BLANK
            },
            b"\xe2\x00\x07\x00\x00\x00\x00\x00\x00\x00\x07\x00\x00\x00\x09\x00\x00\x00\x07",
        ),
        (
            Fields {
                kind: 8,
                request: 8,
                batch: 7,
                ..BLANK
            },
            b"\xe2\x00\x08\x00\x00\x00\x00\x00\x00\x00\x08\x00\x00\x00\x09\x00\x00\x00\x07",
        ),
        (
            Fields {
                kind: 9,
                request: 9,
                xid: XID,
                ..BLANK
            },
            b"\xf0\x00\x09\x00\x00\x00\x00\x00\x00\x00\x09\x00\x00\x00\x09\
              \x01\x01\x01\x01\x01\x01\x01\x01\x01\x01\x01\x01\x01\x01\x01\x01\x01\x01\x01\x01",
        ),
    ];

    // Writing gives these bytes and touches nothing past them.
    fn is_written(rt: &impl Abort, fields: &Fields, bytes: &[u8]) -> Result<(), Fail> {
        let mut buffer = [0xEEu8; 64];
        let length = write(fields, &mut buffer)?;
        assert!(rt; buffer.get(..length) == Some(bytes));
        assert!(rt; buffer.get(length) == Some(&0xEE));
        Ok(())
    }

    // Opening these bytes gives the fields and leaves zeros.
    fn is_opened(rt: &impl Abort, fields: &Fields, bytes: &[u8]) -> Result<(), Fail> {
        let mut strip = [0x77u8; 20];
        let opened = open(bytes, &mut strip)?;
        assert_eq!(rt; opened.fields(), *fields);
        assert!(rt; strip[0] == 0 && strip[18] == 0 && strip[19] == 0x77);
        Ok(())
    }

    #[test]
    fn cards(rt: HostRuntime) {
        let known = [
            (4_222_222_222_222, true),
            (4_222_222_222_223, false),
            (4_111_111_111_111_111, true),
            (5_555_555_555_554_444, true),
            (4_111_111_111_111_112, false),
            (6_304_000_000_000_000_000, true),
            (6_304_000_000_000_000_001, false),
        ];
        for (card, passes) in known {
            let mut buffer = [0u8; 53];
            let fields = Fields {
                kind: 1,
                request: 1,
                course: 9,
                xid: XID,
                card,
                amount: 1,
                batch: 0,
            };
            assert_eq!(rt; write(&fields, &mut buffer).is_ok(), passes);
        }
    }

    #[test]
    fn messages(rt: HostRuntime) -> Result<(), Fail> {
        for (fields, bytes) in MESSAGES {
            is_written(&rt, &fields, bytes)?;
            is_opened(&rt, &fields, bytes)?;
        }
        Ok(())
    }
}
