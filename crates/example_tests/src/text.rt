//! Written by examples/as_tests.sh from the files of examples/.
use crate::hosts::shows;

const TEXT: &[u8] =
    b"# The text calls: a line is put together, compared, searched, and split into its words.
# A call keeps every register but r2, k0 and k1, so an argument that stays is given once.

.equ GATE_A   0xA0
.equ EXIT     0x06
.equ STRCAT   0x15
.equ STRCMP   0x17
.equ STRCPY   0x19
.equ STRCHR   0x1E
.equ STRTOK   0x23
.equ STRSTR   0x24
.equ PUTCHAR  0x3C
.equ PUTS     0x3E

start:
        li      r17, GATE_A

        la      r4, line
        la      r5, begin
        jalr    r31, r17                # the line is \"the quick \"
        li      r9, STRCPY              # in the slot of the jump
        la      r5, end
        jalr    r31, r17                # and \"brown fox\" behind it
        li      r9, STRCAT
        jal     print                   # r4 is still the line
        nop

        la      r4, line
        la      r5, whole
        jalr    r31, r17
        li      r9, STRCMP
        move    r18, r2                 # 0: the texts are equal

        li      r5, 'q'
        jalr    r31, r17
        li      r9, STRCHR
        jal     print                   # from the first q on
        move    r4, r2

        la      r4, line
        la      r5, brown
        jalr    r31, r17
        li      r9, STRSTR
        jal     print                   # from \"brown\" on
        move    r4, r2

        la      r4, line                # the first call names the line,
        la      r5, blank
word:
        jalr    r31, r17
        li      r9, STRTOK
        beq     r2, r0, done            # no word is left
        nop
        jal     print
        move    r4, r2
        beq     r0, r0, word
        li      r4, 0                   # and each later one goes on behind the last word

done:
        move    r4, r18                 # strcmp's answer is the program's code
        jr      r17
        li      r9, EXIT

# Writes the text in r4 and a line feed.
print:
        move    r16, r31
        jalr    r31, r17
        li      r9, PUTS
        li      r4, 0x0A
        jalr    r31, r17
        li      r9, PUTCHAR
        jr      r16
        nop

begin:  .asciiz \"the quick \"
end:    .asciiz \"brown fox\"
whole:  .asciiz \"the quick brown fox\"
brown:  .asciiz \"brown\"
blank:  .asciiz \" \"
line:   .space  32
";

const OUTPUT: &[u8] = b"the quick brown fox
quick brown fox
brown fox
the
quick
brown
fox
";

const STOP: &[u8] = b" Exit 00000000
";

#[test]
fn text(rt: HostRuntime) {
    shows(&rt, TEXT, OUTPUT, STOP);
}
