// Lines and their bytes, in buffers that are long enough, exactly long enough and one byte too short.

use super::lines::{AgreementLayer, LONGEST_LINE, Layer, Line};

const NAME_OF_32_BYTES: &[u8] = b"a-name-that-has-thirty-two-bytes";

fn is_zero(bytes: &[u8]) -> bool {
    bytes.iter().all(|byte| *byte == 0)
}

// Whether the buffer then holds this text and zeros behind it.
fn holds(line: &Line, out: &mut [u8], text: &[u8]) -> bool {
    let Some(length) = line.write(out) else {
        return false;
    };
    length == text.len()
        && length <= out.len()
        && &out[0..length] == text
        && is_zero(&out[length..])
}

// Whether the buffer is too short, and then holds zeros.
fn overflows(line: &Line, out: &mut [u8]) -> bool {
    line.write(out).is_none() && is_zero(out)
}

// Whether the line is written as this text.
fn shows(line: &Line, text: &[u8]) -> bool {
    let length = text.len();
    if length == 0 || length > LONGEST_LINE {
        return false;
    }
    let mut long = [b'x'; LONGEST_LINE];
    let mut exact = [b'x'; LONGEST_LINE];
    let mut short = [b'x'; LONGEST_LINE];
    holds(line, &mut long, text)
        && holds(line, &mut exact[0..length], text)
        && overflows(line, &mut short[0..length - 1])
}

fn refused<'a>(refusal: u8, layer: Layer, events: u32, byte: usize, name: &'a [u8]) -> Line<'a> {
    Line::Refused {
        refusal,
        layer,
        events,
        byte,
        name,
    }
}

fn refused_agreement<'a>(refusal: u8, layer: AgreementLayer, byte: usize) -> Line<'a> {
    Line::RefusedAgreement {
        refusal,
        layer,
        byte,
    }
}

#[test]
fn lines_have_these_bytes(rt: HostRuntime) {
    let pass = Line::Pass {
        events: 15,
        bytes: 93,
    };
    assert!(rt; shows(&pass, b"[pass [events 15] [bytes 93]]\n"));
    let largest = Line::Pass {
        events: 4_294_967_295,
        bytes: 18_446_744_073_709_551_615,
    };
    assert!(rt;
        shows(
            &largest,
            b"[pass [events 4294967295] [bytes 18446744073709551615]]\n",
        )
    );
    assert!(rt;
        shows(
            &refused(36, Layer::Sheet, 4, 27, b"sheet"),
            b"[refused 36 [layer sheet] [events 4] [byte 27] [name sheet]]\n",
        )
    );
    assert!(rt;
        shows(
            &refused(32, Layer::Sheet, 0, 0, b""),
            b"[refused 32 [layer sheet] [events 0] [byte 0] [name]]\n",
        )
    );
    assert!(rt;
        shows(
            &refused(51, Layer::Names, 100, 1090, b"]"),
            b"[refused 51 [layer names] [events 100] [byte 1090] [name ]]]\n",
        )
    );
    let longest = refused(
        255,
        Layer::Reader,
        4_294_967_295,
        18_446_744_073_709_551_615,
        NAME_OF_32_BYTES,
    );
    assert!(rt;
        shows(
            &longest,
            b"[refused 255 [layer reader] [events 4294967295] [byte 18446744073709551615] [name a-name-that-has-thirty-two-bytes]]\n",
        )
    );
    assert_eq!(rt; longest.write(&mut [0; LONGEST_LINE]), Some(LONGEST_LINE));
    assert!(rt;
        shows(
            &refused_agreement(19, AgreementLayer::Declarations, 0),
            b"[refused 19 [layer declarations] [byte 0]]\n",
        )
    );
    assert!(rt;
        shows(
            &refused_agreement(20, AgreementLayer::Forms, 7),
            b"[refused 20 [layer forms] [byte 7]]\n",
        )
    );
}
