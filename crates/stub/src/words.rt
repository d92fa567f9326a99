ghost use Rattle.std.specs.Prelude.{◌≡◌, ◌+◌, ◌*◌, ◌<◌, ◌≤◌, ◌^◌, IfOk};
ghost use Rattle.stub.specs.Size.{IsSizeFor};
ghost use Rattle.stub.specs.Words.{code, code_bytes, stub_words};

use exchange_core::Stretch;
use std::alloc::{AllocError, Global};

// The code, but for the two addresses in it.
const CODE: [u16; 63] = [
    0o106427, 0o000340, // start: mtps #340             ; no interrupt from here on
    0o012705, 0o000000, //        mov  #table,r5        ; the address is put in
    0o012706, 0o000000, //        mov  #0,sp            ; a high nibble is to be sent next
    0o012501, //           next:  mov  (r5)+,r1         ; r1: the next stretch's end, or no more
    0o001466, //                  beq  stop
    0o012500, //                  mov  (r5)+,r0         ; r0: where the next byte goes
    0o010002, //                  mov  r0,r2            ; r2: the next byte to send
    0o012703, 0o000200, // byte:  mov  #200,r3          ; a bit that is the sign behind two nibbles
    0o020001, //           loop:  cmp  r0,r1            ; the stretch is full
    0o001427, //                  beq  idle
    0o105737, 0o177560, //        tstb @#177560
    0o100024, //                  bpl  idle
    0o113704, 0o177562, //        movb @#177562,r4
    0o042704, 0o177600, //        bic  #177600,r4       ; seven bits
    0o162704, 0o000140, //        sub  #140,r4
    0o020427, 0o000017, //        cmp  r4,#17           ; no nibble
    0o101010, //                  bhi  bad
    0o006303, //                  asl  r3
    0o006303, //                  asl  r3
    0o006303, //                  asl  r3
    0o006303, //                  asl  r3
    0o060403, //                  add  r4,r3
    0o100354, //                  bpl  loop             ; the low nibble is still to come
    0o110320, //                  movb r3,(r0)+         ; the byte is stored
    0o000750, //                  br   byte
    0o010001, //           bad:   mov  r0,r1            ; the stretch ends here
    0o012705, 0o000000, //        mov  #stop,r5         ; and so does the table: the halt is a 0
    0o020200, //           idle:  cmp  r2,r0            ; nothing is owed
    0o001424, //                  beq  empty
    0o105737, 0o177564, //        tstb @#177564
    0o100342, //                  bpl  loop
    0o005106, //                  com  sp               ; the high nibble, or the low one?
    0o100006, //                  bpl  low
    0o111204, //                  movb (r2),r4
    0o006204, //                  asr  r4
    0o006204, //                  asr  r4
    0o006204, //                  asr  r4
    0o006204, //                  asr  r4
    0o000401, //                  br   out
    0o112204, //           low:   movb (r2)+,r4
    0o005104, //           out:   com  r4
    0o042704, 0o177760, //        bic  #177760,r4       ; the nibble's complement
    0o062704, 0o000140, //        add  #140,r4
    0o110437, 0o177566, //        movb r4,@#177566
    0o000721, //                  br   loop
    0o020001, //           empty: cmp  r0,r1            ; the stretch is full, and all of it was sent
    0o001317, //                  bne  loop
    0o000710, //                  br   next
    0o000000, //           stop:  halt
];

// Where in the code the table's address belongs.
const TABLE_WORD: usize = 3;

// Where that of the halt does.
const HALT_WORD: usize = 36;

// How many bytes the code has: the table lies behind them.
const CODE_BYTES: u16 = 126;

// How many of them lie before the halt.
const HALT_BYTES: u16 = 124;

/// How many words the stub has for so many stretches: 63 of code, two for each stretch, and one.
pub fn stub_size(stretches: usize) -> usize
    requires few { stretches ≤ 2 ^ 16 }
    ensures words { IsSizeFor stretches result }
    ensures number { result ≡ 63 + 2 * stretches + 1 }
{
    CODE.len() + 2 * stretches + 1
}

/// The stub's words for an address at which they are to lie, and its stretches. The one error is want
/// of memory.
pub fn stub_words(alloc: Global, place: u16, stretches: &[Stretch]) -> Result<Vec<u16>, AllocError>
    requires room { place + code_bytes < 2 ^ 16 }
    ensures words { IfOk result (λ words. words.items ≡ stub_words place stretches.now) }
{
    let mut words = Vec::new(alloc);
    words.extend_from_slice(&code(place))?;
    // table: end, start, end, start .. 0: the end first, so that one word tells that there is no more
    for stretch in stretches {
        words.push(stretch.to)?;
        words.push(stretch.from)?;
    }
    words.push(0)?;
    Ok(words)
}

// The code for an address.
fn code(place: u16) -> [u16; 63]
    requires room { place + code_bytes < 2 ^ 16 }
    ensures { result ≡ code place }
{
    let mut code = CODE;
    code[TABLE_WORD] = place + CODE_BYTES;
    code[HALT_WORD] = place + HALT_BYTES;
    code
}
