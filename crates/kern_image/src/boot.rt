//! The words of the boot code, which the processor runs first, at the start of the ROM.
//! Each line has the word, the low half of its address, and its assembly. The instruction behind a load neither reads nor writes its register (R3000A manual, load delay).

/// The boot code: copies the kernel's 64 KB to main memory, stores the two sizes where the kernel keeps them, and leaves to the program with the start ports' values.
///
/// It begins at BFC00000h. At its RFE r4 is 1, r31 is 000000D0h, k0 is the start pc, gp and sp are the start ports', fp is sp,
/// and every other register is 0. That RFE is the 38,941st step, whatever the program.
pub const BOOT: [u32; 48] = [
    0x3C08BFC1, // 0000  lui r8, 0xBFC1           the block in the ROM
    0x3C098000, // 0004  lui r9, 0x8000           its place in main memory
    0x3C0ABFC2, // 0008  lui r10, 0xBFC2          the block's end in the ROM
    // copy: eight words a turn, 2,048 turns
    0x8D0B0000, // 000C  lw r11, 0(r8)
    0x8D0C0004, // 0010  lw r12, 4(r8)
    0x8D0D0008, // 0014  lw r13, 8(r8)
    0x8D0E000C, // 0018  lw r14, 12(r8)
    0x8D0F0010, // 001C  lw r15, 16(r8)
    0x8D100014, // 0020  lw r16, 20(r8)
    0x8D110018, // 0024  lw r17, 24(r8)
    0x8D12001C, // 0028  lw r18, 28(r8)
    0x25080020, // 002C  addiu r8, r8, 32
    0xAD2B0000, // 0030  sw r11, 0(r9)
    0xAD2C0004, // 0034  sw r12, 4(r9)
    0xAD2D0008, // 0038  sw r13, 8(r9)
    0xAD2E000C, // 003C  sw r14, 12(r9)
    0xAD2F0010, // 0040  sw r15, 16(r9)
    0xAD300014, // 0044  sw r16, 20(r9)
    0xAD310018, // 0048  sw r17, 24(r9)
    0xAD32001C, // 004C  sw r18, 28(r9)
    0x150AFFEE, // 0050  bne r8, r10, copy
    0x25290020, // 0054  addiu r9, r9, 32
    0x3C081F80, // 0058  lui r8, 0x1F80           the ports
    0x8D1A2118, // 005C  lw k0, 0x2118(r8)        start pc
    0x8D1C211C, // 0060  lw gp, 0x211C(r8)        start gp
    0x8D1D2120, // 0064  lw sp, 0x2120(r8)        start sp
    0x8D0A2124, // 0068  lw r10, 0x2124(r8)       the number of threads
    0x8D0B2128, // 006C  lw r11, 0x2128(r8)       the number of events
    0x03A0F025, // 0070  or fp, sp, r0
    0xAD2AEA0C, // 0074  sw r10, 0xEA0C(r9)       r9 is 80010000h: THREAD_COUNT
    0xAD2BEA10, // 0078  sw r11, 0xEA10(r9)       EVENT_COUNT
    0x24040001, // 007C  addiu r4, r0, 1
    0x241F00D0, // 0080  addiu r31, r0, 0xD0      a return of the program ends it
    0x24080404, // 0084  addiu r8, r0, 0x404      RFE makes it 401h: interrupts on
    0x40886000, // 0088  mtc0 r8, sr
    0x00004025, // 008C  or r8, r0, r0            every other register is 0
    0x00004825, // 0090  or r9, r0, r0
    0x00005025, // 0094  or r10, r0, r0
    0x00005825, // 0098  or r11, r0, r0
    0x00006025, // 009C  or r12, r0, r0
    0x00006825, // 00A0  or r13, r0, r0
    0x00007025, // 00A4  or r14, r0, r0
    0x00007825, // 00A8  or r15, r0, r0
    0x00008025, // 00AC  or r16, r0, r0
    0x00008825, // 00B0  or r17, r0, r0
    0x00009025, // 00B4  or r18, r0, r0
    0x03400008, // 00B8  jr k0
    0x42000010, // 00BC  rfe
];
