//! The example pieces read back, texts that are none, and how long a large one takes.
ghost use Rattle.lx_ccode.specs.Validity.{IsValid};

use super::timing::micros_since;
use lx_base::Memory;
use lx_ccode::{LineMark, Piece, is_three, print};
use lx_creader::{PieceStop, read_piece};
use lx_shared::SharedText;
use memchr::memmem;
use std::alloc::{AllocError, Global};
use std::test::Fail;
use std::time::Instant;

/// With a context marker, tags and `#line`.
const CONTEXT: &[u8] =
    b"/*!begin:re2c 1*/\n/*!names:re2c 1 - 7:YYCTYPE 8:YYCURSOR 7:YYLIMIT 8:YYMARKER 11:YYCTXMARKER 6:YYFILL 10:YYGETSTATE 10:YYSETSTATE 14:YYGETCONDITION 14:YYSETCONDITION 7:YYMTAGP 7:YYMTAGN 4:yych 8:yyaccept 3:yyt 4:yyc_ 3:yyc*/\n{\n\tYYCTYPE yych;\n\tunsigned int yyaccept = 0;\nyy1_0:\n\tyych = *YYCURSOR;\n\tif (yych <= 0x60) goto yy1_5;\n\tif (yych <= 0x61) goto yy1_1;\n\tgoto yy1_5;\nyy1_1:\n\t++YYCURSOR;\n\tYYCTXMARKER = YYCURSOR;\n\tyyt2 = NULL;\n\tYYMTAGP(yytm1);\n\tYYMARKER = YYCURSOR;\n\tyyaccept = 1;\n\tyych = *YYCURSOR;\n\tif (yych <= 0x61) goto yy1_3;\n\tif (yych <= 0x62) goto yy1_2;\n\tgoto yy1_3;\nyy1_2:\n\t++YYCURSOR;\n\tyyt2 = YYCTXMARKER;\n\tYYMTAGN(yytm2);\n\tyytm3 = yytm1;\n\ts = yyt2;\n\th = yytm3;\n\tYYCURSOR = YYCTXMARKER;\n#line 3 \"a\\\"b.re\"\n\t/*!code:re2c 1 13*/{ return 1; }\nyy1_3:\n\tif (yyaccept == 1) goto yy1_4;\n\tgoto yy1_5;\nyy1_4:\n\tYYCURSOR = YYMARKER;\n#line 4 \"a\\\"b.re\"\n\t/*!code:re2c 2 13*/{ return 2; }\nyy1_5:\n\tgoto yy1_none;\nyy1_none:;\n}\n#line 5 \"a\\\"b.re\"\n/*!end:re2c*/";

/// With conditions and stored states.
const STORED: &[u8] =
    b"/*!begin:re2c 2*/\n/*!names:re2c 1 0 7:YYCTYPE 8:YYCURSOR 7:YYLIMIT 8:YYMARKER 11:YYCTXMARKER 6:YYFILL 10:YYGETSTATE 10:YYSETSTATE 14:YYGETCONDITION 14:YYSETCONDITION 7:YYMTAGP 7:YYMTAGN 4:yych 8:yyaccept 3:yyt 4:yyc_ 3:yyc*/\n{\n\tswitch (YYGETSTATE()) {\n\tcase 0: goto yy2_4;\n\tcase 1: goto yy2_10;\n\tdefault: goto yy2_cond;\n\t}\nyy2_cond:\n\tswitch (YYGETCONDITION()) {\n\tcase yycA: goto yy2_0;\n\tcase yycB: goto yy2_6;\n\t}\nyyc_A:\nyy2_0:\n\tyych = *YYCURSOR;\n\tif (yych <= 0x00) goto yy2_2;\n\tif (yych <= 0x60) goto yy2_5;\n\tif (yych <= 0x61) goto yy2_1;\n\tgoto yy2_5;\nyy2_1:\n\t++YYCURSOR;\n\tYYSETCONDITION(yycB);\n\tgoto yyc_B; /* 1 */\nyy2_2:\n\tif (YYCURSOR >= YYLIMIT) goto yy2_3;\n\tgoto yy2_5;\nyy2_3:\n\tYYSETSTATE(0);\n\tif (YYFILL() == 0) goto yy2_0;\n\tgoto yy2_5;\nyy2_4:\n\tif (YYCURSOR >= YYLIMIT) goto yy2_5;\n\tgoto yy2_0;\nyy2_5:\n\tgoto yy2_none;\nyyc_B:\nyy2_6:\n\tyych = *YYCURSOR;\n\tif (yych <= 0x00) goto yy2_8;\n\tif (yych <= 0x61) goto yy2_11;\n\tif (yych <= 0x62) goto yy2_7;\n\tgoto yy2_11;\nyy2_7:\n\t++YYCURSOR;\n\tYYSETCONDITION(yycA);\n\t/*!code:re2c 2 13*/{ return 2; }\nyy2_8:\n\tif (YYCURSOR >= YYLIMIT) goto yy2_9;\n\tgoto yy2_11;\nyy2_9:\n\tYYSETSTATE(1);\n\tif (YYFILL() == 0) goto yy2_6;\n\tgoto yy2_11;\nyy2_10:\n\tif (YYCURSOR >= YYLIMIT) goto yy2_11;\n\tgoto yy2_6;\nyy2_11:\n\tgoto yy2_none;\nyy2_none:;\n}\n/*!end:re2c*/";

/// With two bytes a unit, checks and groups.
const CHECKED: &[u8] =
    b"/*!begin:re2c 3*/\n/*!names:re2c 2 - 7:YYCTYPE 8:YYCURSOR 7:YYLIMIT 8:YYMARKER 11:YYCTXMARKER 6:YYFILL 10:YYGETSTATE 10:YYSETSTATE 14:YYGETCONDITION 14:YYSETCONDITION 7:YYMTAGP 7:YYMTAGN 4:yych 8:yyaccept 3:yyt 4:yyc_ 3:yyc*/\n{\n\tswitch (YYGETSTATE()) {\n\tcase 7: goto yy3_0;\n\tdefault: goto yy3_0;\n\t}\nyy3_0:\n\tYYSETSTATE(7);\n\tif ((YYLIMIT - YYCURSOR) < 2) YYFILL(2);\n\tyyt1 = YYCURSOR;\n\tyych = *YYCURSOR;\n\tif (yych <= 0x60) goto yy3_2;\n\tif (yych <= 0x100A) goto yy3_1;\n\tgoto yy3_2;\nyy3_1:\n\t++YYCURSOR;\n\tyyt2 = YYCURSOR;\n\t++YYCURSOR;\n\tyynmatch = 1;\n\tyypmatch[0] = yyt1;\n\tyypmatch[1] = yyt2;\n\t/*!code:re2c 1 13*/{ return 1; }\nyy3_2:\n\tgoto yy3_none;\nyy3_none:;\n}\n/*!end:re2c*/";

/// Of format 3, with a table of sets, a test of one unit, and a switch over units.
const TESTED: &[u8] =
    b"/*!begin:re2c 4*/\n/*!head:re2c 3 byte plain 0 0 0*/\n/*!names:re2c 1 - 7:YYCTYPE 8:YYCURSOR 7:YYLIMIT 8:YYMARKER 11:YYCTXMARKER 6:YYFILL 10:YYGETSTATE 10:YYSETSTATE 14:YYGETCONDITION 14:YYSETCONDITION 7:YYMTAGP 7:YYMTAGN 4:yych 8:yyaccept 3:yyt 4:yyc_ 3:yyc*/\n{\n\tstatic const unsigned char yybm[256] = {\n\t0x00,0x00,0x00,0x00,0x00,0x00,0x00,0x00,0x00,0x00,0x00,0x00,0x00,0x00,0x00,0x00,\n\t0x00,0x00,0x00,0x00,0x00,0x00,0x00,0x00,0x00,0x00,0x00,0x00,0x00,0x00,0x00,0x00,\n\t0x00,0x00,0x00,0x00,0x00,0x00,0x00,0x00,0x00,0x00,0x00,0x00,0x00,0x00,0x00,0x00,\n\t0x00,0x00,0x00,0x00,0x00,0x00,0x00,0x00,0x00,0x00,0x00,0x00,0x00,0x00,0x00,0x00,\n\t0x00,0x00,0x00,0x00,0x00,0x00,0x00,0x00,0x00,0x00,0x00,0x00,0x00,0x00,0x00,0x00,\n\t0x00,0x00,0x00,0x00,0x00,0x00,0x00,0x00,0x00,0x00,0x00,0x00,0x00,0x00,0x00,0x00,\n\t0x00,0x00,0x00,0x00,0x00,0x00,0x00,0x00,0x00,0x00,0x00,0x00,0x00,0x00,0x00,0x00,\n\t0x00,0x00,0x00,0x00,0x00,0x00,0x00,0x00,0x01,0x02,0x00,0x00,0x00,0x00,0x00,0x00,\n\t0x00,0x00,0x00,0x00,0x00,0x00,0x00,0x00,0x00,0x00,0x00,0x00,0x00,0x00,0x00,0x00,\n\t0x00,0x00,0x00,0x00,0x00,0x00,0x00,0x00,0x00,0x00,0x00,0x00,0x00,0x00,0x00,0x00,\n\t0x00,0x00,0x00,0x00,0x00,0x00,0x00,0x00,0x00,0x00,0x00,0x00,0x00,0x00,0x00,0x00,\n\t0x00,0x00,0x00,0x00,0x00,0x00,0x00,0x00,0x00,0x00,0x00,0x00,0x00,0x00,0x00,0x00,\n\t0x00,0x00,0x00,0x00,0x00,0x00,0x00,0x00,0x00,0x00,0x00,0x00,0x00,0x00,0x00,0x00,\n\t0x00,0x00,0x00,0x00,0x00,0x00,0x00,0x00,0x00,0x00,0x00,0x00,0x00,0x00,0x00,0x00,\n\t0x00,0x00,0x00,0x00,0x00,0x00,0x00,0x00,0x00,0x00,0x00,0x00,0x00,0x00,0x00,0x00,\n\t0x00,0x00,0x00,0x00,0x00,0x00,0x00,0x00,0x00,0x00,0x00,0x00,0x00,0x00,0x00,0x00,\n\t};\n\tunsigned char yych;\n\nyy4_0:\n\tyych = *YYCURSOR;\n\tif (yych == 0x61) goto yy4_1;\n\tif (yybm[yych] & 0x01) goto yy4_2;\n\tif (yybm[yych] & 0x02) goto yy4_2;\n\tswitch (yych) {\n\tcase 0x62: case 0x64: goto yy4_3;\n\tcase 0x00: goto yy4_4;\n\tdefault: goto yy4_5;\n\t}\nyy4_1:\n\t++YYCURSOR;\n\t/*!code:re2c 1 13*/{ return 1; }\nyy4_2:\n\t++YYCURSOR;\n\tgoto yy4_0;\nyy4_3:\n\t++YYCURSOR;\n\t/*!code:re2c 2 13*/{ return 2; }\nyy4_4:\n\tgoto yy4_none;\nyy4_5:\n\tgoto yy4_none;\nyy4_none:;\n}\n/*!end:re2c*/";

/// Of format 3, with two bytes a unit and nine sets.
const WIDE: &[u8] =
    b"/*!begin:re2c 5*/\n/*!head:re2c 3 kept ucs2 plain 0 0 0*/\n/*!names:re2c 2 - 7:YYCTYPE 8:YYCURSOR 7:YYLIMIT 8:YYMARKER 11:YYCTXMARKER 6:YYFILL 10:YYGETSTATE 10:YYSETSTATE 14:YYGETCONDITION 14:YYSETCONDITION 7:YYMTAGP 7:YYMTAGN 4:yych 8:yyaccept 3:yyt 4:yyc_ 3:yyc*/\n{\n\tstatic const unsigned char yybm[512] = {\n\t0x00,0x00,0x00,0x00,0x00,0x00,0x00,0x00,0x00,0x00,0x00,0x00,0x00,0x00,0x00,0x00,\n\t0x00,0x00,0x00,0x00,0x00,0x00,0x00,0x00,0x00,0x00,0x00,0x00,0x00,0x00,0x00,0x00,\n\t0x00,0x00,0x00,0x00,0x00,0x00,0x00,0x00,0x00,0x00,0x00,0x00,0x00,0x00,0x00,0x00,\n\t0x00,0x00,0x00,0x00,0x00,0x00,0x00,0x00,0x00,0x00,0x00,0x00,0x00,0x00,0x00,0x00,\n\t0x00,0x00,0x00,0x00,0x00,0x00,0x00,0x00,0x00,0x00,0x00,0x00,0x00,0x00,0x00,0x00,\n\t0x00,0x00,0x00,0x00,0x00,0x00,0x00,0x00,0x00,0x00,0x00,0x00,0x00,0x00,0x00,0x00,\n\t0x00,0x00,0x00,0x00,0x00,0x00,0x00,0x00,0x00,0x00,0x00,0x00,0x00,0x00,0x00,0x00,\n\t0x00,0x00,0x00,0x00,0x00,0x00,0x00,0x00,0x00,0x00,0x00,0x00,0x00,0x00,0x00,0x00,\n\t0x00,0x00,0x00,0x00,0x00,0x00,0x00,0x00,0x00,0x00,0x00,0x00,0x00,0x00,0x00,0x00,\n\t0x00,0x00,0x00,0x00,0x00,0x00,0x00,0x00,0x00,0x00,0x00,0x00,0x00,0x00,0x00,0x00,\n\t0x00,0x00,0x00,0x00,0x00,0x00,0x00,0x00,0x00,0x00,0x00,0x00,0x00,0x00,0x00,0x00,\n\t0x00,0x00,0x00,0x00,0x00,0x00,0x00,0x00,0x00,0x00,0x00,0x00,0x00,0x00,0x00,0x00,\n\t0x00,0x00,0x00,0x00,0x00,0x00,0x00,0x00,0x00,0x00,0x00,0x00,0x00,0x00,0x00,0x00,\n\t0x00,0x00,0x00,0x00,0x00,0x00,0x00,0x00,0x00,0x00,0x00,0x00,0x00,0x00,0x00,0x00,\n\t0x00,0x00,0x00,0x00,0x00,0x00,0x00,0x00,0x00,0x00,0x00,0x00,0x00,0x00,0x00,0x00,\n\t0x00,0x00,0x00,0x00,0x00,0x00,0x00,0x00,0x00,0x00,0x00,0x00,0x00,0x00,0x00,0x00,\n\t0x00,0x00,0x00,0x00,0x00,0x00,0x00,0x00,0x00,0x00,0x00,0x00,0x00,0x00,0x00,0x00,\n\t0x00,0x00,0x00,0x00,0x00,0x00,0x00,0x00,0x00,0x00,0x00,0x00,0x00,0x00,0x00,0x00,\n\t0x00,0x00,0x00,0x00,0x00,0x00,0x00,0x00,0x00,0x00,0x00,0x00,0x00,0x00,0x00,0x00,\n\t0x00,0x00,0x00,0x00,0x00,0x00,0x00,0x00,0x00,0x00,0x00,0x00,0x00,0x00,0x00,0x00,\n\t0x00,0x01,0x00,0x00,0x00,0x00,0x00,0x00,0x00,0x00,0x00,0x00,0x00,0x00,0x00,0x00,\n\t0x00,0x00,0x00,0x00,0x00,0x00,0x00,0x00,0x00,0x00,0x00,0x00,0x00,0x00,0x00,0x00,\n\t0x00,0x00,0x00,0x00,0x00,0x00,0x00,0x00,0x00,0x00,0x00,0x00,0x00,0x00,0x00,0x00,\n\t0x00,0x00,0x00,0x00,0x00,0x00,0x00,0x00,0x00,0x00,0x00,0x00,0x00,0x00,0x00,0x00,\n\t0x00,0x00,0x00,0x00,0x00,0x00,0x00,0x00,0x00,0x00,0x00,0x00,0x00,0x00,0x00,0x00,\n\t0x00,0x00,0x00,0x00,0x00,0x00,0x00,0x00,0x00,0x00,0x00,0x00,0x00,0x00,0x00,0x00,\n\t0x00,0x00,0x00,0x00,0x00,0x00,0x00,0x00,0x00,0x00,0x00,0x00,0x00,0x00,0x00,0x00,\n\t0x00,0x00,0x00,0x00,0x00,0x00,0x00,0x00,0x00,0x00,0x00,0x00,0x00,0x00,0x00,0x00,\n\t0x00,0x00,0x00,0x00,0x00,0x00,0x00,0x00,0x00,0x00,0x00,0x00,0x00,0x00,0x00,0x00,\n\t0x00,0x00,0x00,0x00,0x00,0x00,0x00,0x00,0x00,0x00,0x00,0x00,0x00,0x00,0x00,0x00,\n\t0x00,0x00,0x00,0x00,0x00,0x00,0x00,0x00,0x00,0x00,0x00,0x00,0x00,0x00,0x00,0x00,\n\t0x00,0x00,0x00,0x00,0x00,0x00,0x00,0x00,0x00,0x00,0x00,0x00,0x00,0x00,0x00,0x00,\n\t};\n\nyy5_0:\n\tyych = *YYCURSOR;\n\tif (yych <= 0xFF && (yybm[yych] & 0x01)) goto yy5_3;\n\tif (yych <= 0xFF && (yybm[0x100 + yych] & 0x01)) goto yy5_1;\n\tgoto yy5_2;\nyy5_1:\n\t++YYCURSOR;\n\t/*!code:re2c 1 13*/{ return 1; }\nyy5_2:\n\tgoto yy5_none;\nyy5_3:\n\t++YYCURSOR;\n\t/*!code:re2c 2 13*/{ return 2; }\nyy5_none:;\n}\n/*!end:re2c*/";

/// Of format 3, with conditions, and at a place of an output.
const PLACED: &[u8] =
    b"/*!begin:re2c 6*/\n/*!head:re2c 3 byte plain 0 0 0*/\n/*!names:re2c 1 - 7:YYCTYPE 8:YYCURSOR 7:YYLIMIT 8:YYMARKER 11:YYCTXMARKER 6:YYFILL 10:YYGETSTATE 10:YYSETSTATE 14:YYGETCONDITION 14:YYSETCONDITION 7:YYMTAGP 7:YYMTAGN 4:yych 8:yyaccept 3:yyt 4:yyc_ 3:yyc*/\n#line 7 \"o.c\"\n{\n\tunsigned char yych;\n\tunsigned int yyaccept = 0;\n\tswitch (YYGETCONDITION()) {\n\tcase yycA: goto yyc_A;\n\tcase yycB: goto yyc_B;\n\t}\n\nyyc_A:\n\tyych = *YYCURSOR;\n\tif (yych == 0x78) goto yy6_1;\n\tgoto yy6_2;\nyy6_1:\n\t++YYCURSOR;\n\tYYSETCONDITION(yycB);\n\tgoto yyc_B; /* 1 */\nyy6_2:\n\tgoto yy6_none;\nyyc_B:\n\tyyaccept = 1;\n\tyych = *YYCURSOR;\n\tif (yych == 0x79) goto yy6_4;\n\tgoto yy6_2;\nyy6_4:\n\t++YYCURSOR;\n\tYYSETCONDITION(yycA);\n#line 3 \"a.re\"\n\t/*!code:re2c 2 13*/{ return 2; }\n#line 36 \"o.c\"\nyy6_none:;\n}\n#line 5 \"a.re\"\n/*!end:re2c*/";

/// Of format 3, with conditions and stored states, where the user declares the variables.
const KEPT: &[u8] =
    b"/*!begin:re2c 2*/\n/*!head:re2c 3 kept byte eof 0 0 2*/\n/*!names:re2c 1 0 7:YYCTYPE 8:YYCURSOR 7:YYLIMIT 8:YYMARKER 11:YYCTXMARKER 6:YYFILL 10:YYGETSTATE 10:YYSETSTATE 14:YYGETCONDITION 14:YYSETCONDITION 7:YYMTAGP 7:YYMTAGN 4:yych 8:yyaccept 3:yyt 4:yyc_ 3:yyc*/\n{\n\tswitch (YYGETSTATE()) {\n\tcase 0: goto yy2_4;\n\tcase 1: goto yy2_10;\n\tdefault: goto yy2_cond;\n\t}\nyy2_cond:\n\tswitch (YYGETCONDITION()) {\n\tcase yycA: goto yyc_A;\n\tcase yycB: goto yyc_B;\n\t}\n\nyyc_A:\nyy2_0:\n\tyych = *YYCURSOR;\n\tif (yych <= 0x00) goto yy2_2;\n\tif (yych <= 0x60) goto yy2_5;\n\tif (yych <= 0x61) goto yy2_1;\n\tgoto yy2_5;\nyy2_1:\n\t++YYCURSOR;\n\tYYSETCONDITION(yycB);\n\tgoto yyc_B; /* 1 */\nyy2_2:\n\tif (YYCURSOR >= YYLIMIT) goto yy2_3;\n\tgoto yy2_5;\nyy2_3:\n\tYYSETSTATE(0);\n\tif (YYFILL() == 0) goto yy2_0;\n\tgoto yy2_5;\nyy2_4:\n\tif (YYCURSOR >= YYLIMIT) goto yy2_5;\n\tgoto yy2_0;\nyy2_5:\n\tgoto yy2_none;\nyyc_B:\nyy2_6:\n\tyych = *YYCURSOR;\n\tif (yych <= 0x00) goto yy2_8;\n\tif (yych <= 0x61) goto yy2_11;\n\tif (yych <= 0x62) goto yy2_7;\n\tgoto yy2_11;\nyy2_7:\n\t++YYCURSOR;\n\tYYSETCONDITION(yycA);\n\t/*!code:re2c 2 13*/{ return 2; }\nyy2_8:\n\tif (YYCURSOR >= YYLIMIT) goto yy2_9;\n\tgoto yy2_11;\nyy2_9:\n\tYYSETSTATE(1);\n\tif (YYFILL() == 0) goto yy2_6;\n\tgoto yy2_11;\nyy2_10:\n\tif (YYCURSOR >= YYLIMIT) goto yy2_11;\n\tgoto yy2_6;\nyy2_11:\n\tgoto yy2_none;\nyy2_none:;\n}\n/*!end:re2c*/";

/// Whether a text begins with a piece that prints it; nothing where memory is wanting.
fn is_read(alloc: Global, text: &[u8]) -> Option<bool> {
    match read_piece(alloc, text, 0) {
        Ok(piece) => is_printed(alloc, &piece, text),
        Err(PieceStop::NotEmitted(_)) => Some(false),
        Err(_) => None,
    }
}

/// Whether the text of a piece stands at the front of another one; nothing where memory is wanting.
fn is_printed(alloc: Global, piece: &Piece, text: &[u8]) -> Option<bool>
    requires { IsValid piece.now }
{
    let place = place_of(alloc, piece).ok()?;
    match print(alloc, &place, piece) {
        Ok(printed) => Some(text.starts_with(printed.as_slice())),
        Err(_) => None,
    }
}

/// The place of a piece that has one, which is that of one example.
fn place_of(alloc: Global, piece: &Piece) -> Result<Option<LineMark>, Memory> {
    if is_three(&piece.head) && piece.line.is_some() {
        let file = SharedText::copy_of(alloc, b"o.c")?;
        Ok(Some(LineMark { line: 7, file }))
    } else {
        Ok(None)
    }
}

/// One of the example pieces.
#[derive(Clone, Copy)]
enum Example {
    Context,
    Stored,
    Checked,
    Tested,
    Wide,
    Placed,
    Kept,
}

/// Each statement stands in one of these pieces.
const EXAMPLES: [Example; 7] = [
    Example::Context,
    Example::Stored,
    Example::Checked,
    Example::Tested,
    Example::Wide,
    Example::Placed,
    Example::Kept,
];

fn text_of(example: Example) -> &'static [u8] {
    match example {
        Example::Context => CONTEXT,
        Example::Stored => STORED,
        Example::Checked => CHECKED,
        Example::Tested => TESTED,
        Example::Wide => WIDE,
        Example::Placed => PLACED,
        Example::Kept => KEPT,
    }
}

#[test]
fn examples_are_read_back(rt: HostRuntime) {
    for example in EXAMPLES {
        let text = text_of(example);
        assert!(rt; is_read(rt.alloc(), text) == Some(true));
    }
}

#[test]
fn fronts_are_no_pieces(rt: HostRuntime) {
    for example in EXAMPLES {
        let text = text_of(example);
        for end in 0..text.len() {
            let is_row = is_in_row(text, end);
            assert!(rt;
                is_row || is_read(rt.alloc(), &text[..end]) == Some(false),
                "{end}"
            );
        }
    }
}

/// Whether the text is a piece where the byte at a place is 0; nothing where memory is wanting.
fn is_read_without(alloc: Global, text: &[u8], place: usize) -> Option<bool> {
    let mut bytes = Vec::from_slice(alloc, text).ok()?;
    if let Some(byte) = bytes.get_mut(place) {
        *byte = 0;
    }
    is_read(alloc, &bytes)
}

#[test]
fn each_byte_counts_but_in_actions_and_names(rt: HostRuntime) {
    for example in EXAMPLES {
        let text = text_of(example);
        for place in 0..text.len() {
            let is_row = is_in_row(text, place);
            let is_free = is_in_action(text, place) || is_in_name(text, place);
            assert!(rt;
                is_row || is_read_without(rt.alloc(), text, place) == Some(is_free),
                "{place}"
            );
        }
    }
}

/// A text with other bytes in the place of the first ones that are these.
fn with_other(
    alloc: Global,
    text: &[u8],
    these: &[u8],
    other: &[u8],
) -> Result<Vec<u8>, AllocError> {
    let mut bytes = Vec::new(alloc);
    match memmem::find(text, these) {
        Some(place) => {
            bytes.extend_from_slice(text.get(..place).unwrap_or(&[]))?;
            bytes.extend_from_slice(other)?;
            let behind = place.saturating_add(these.len());
            bytes.extend_from_slice(text.get(behind..).unwrap_or(&[]))?;
        }
        None => {}
    }
    Ok(bytes)
}

/// What may stand in the place of other bytes of a text of format 3, and whether it is a piece then.
const CHANGES: [(Example, &[u8], &[u8], bool); 33] = [
    (Example::Tested, b"0x01,0x02,", b"0x41,0x02,", true),
    (Example::Tested, b"0x01,0x02,", b"0x1,0x02,", false),
    (Example::Tested, b"0x01,0x02,", b"0x01, 0x02,", false),
    (Example::Tested, b"yybm[256]", b"yybm[255]", false),
    (Example::Tested, b"& 0x02)", b"& 0x03)", false),
    (Example::Tested, b"& 0x02)", b"& 0x80)", true),
    (
        Example::Tested,
        b"yybm[yych] & 0x02",
        b"yybm[0x100 + yych] & 0x02",
        false,
    ),
    (
        Example::Tested,
        b"case 0x62: case 0x64:",
        b"case 0x62: case 0x62:",
        false,
    ),
    (Example::Tested, b"case 0x00:", b"case 0x64:", false),
    (
        Example::Tested,
        b"case 0x62: case 0x64:",
        b"case 0x64: case 0x62:",
        true,
    ),
    (Example::Tested, b"\tdefault: goto yy4_5;\n", b"", false),
    (Example::Tested, b"== 0x61", b"== 0x0061", false),
    (Example::Tested, b"re2c 3 byte", b"re2c 2 byte", false),
    (
        Example::Tested,
        b"case 0x62: case 0x64:",
        b"case 0x62: case 0xFF:",
        true,
    ),
    (
        Example::Tested,
        b"unsigned char yych",
        b"unsigned int yych",
        false,
    ),
    (
        Example::Tested,
        b"unsigned char yych;\n",
        b"unsigned char yych;\n\tunsigned int yyaccept = 0;\n",
        false,
    ),
    (Example::Tested, b"\tunsigned char yych;\n", b"", false),
    (Example::Tested, b"re2c 3 byte", b"re2c 3 kept byte", false),
    (Example::Tested, b"\n\nyy4_0:", b"\nyy4_0:", false),
    (Example::Tested, b"yy4_1:\n", b"", false),
    (Example::Tested, b"goto yy4_0;", b"goto yy4_1;", false),
    (Example::Tested, b"yy4_none:;\n", b"", false),
    (
        Example::Wide,
        b"yych <= 0xFF && (yybm[yych] & 0x01)",
        b"yybm[yych] & 0x01",
        false,
    ),
    (Example::Placed, b"yyc_B:\n", b"yyc_B:\nyy6_3:\n", false),
    (Example::Placed, b"yyc_B:\n", b"yy6_3:\n", false),
    (
        Example::Placed,
        b"goto yyc_B;\n\t}",
        b"goto yy6_3;\n\t}",
        false,
    ),
    (Example::Placed, b"#line 36 ", b"#line 35 ", false),
    (Example::Placed, b"#line 36 \"o.c\"\n", b"", false),
    (Example::Placed, b"#line 7 \"o.c\"\n", b"", false),
    (Example::Placed, b"#line 5 \"a.re\"\n", b"", false),
    (
        Example::Placed,
        b"\tswitch (YYGETC",
        b"yy6_cond:\n\tswitch (YYGETC",
        false,
    ),
    (Example::Kept, b"yy2_cond:\n", b"", false),
    (Example::Kept, b"yy2_4:\n", b"", false),
];

#[test]
fn texts_of_format_three_have_one_spelling(rt: HostRuntime) -> Result<(), Fail> {
    for (example, these, other, is_piece) in CHANGES {
        let changed = with_other(rt.alloc(), text_of(example), these, other)?;
        assert!(rt; is_read(rt.alloc(), &changed) == Some(is_piece));
    }
    Ok(())
}

/// Whether only zeros of a table stand around the place, so that it is as many others.
fn is_in_row(text: &[u8], place: usize) -> bool {
    let first = place.saturating_sub(15);
    match text.get(first..place.saturating_add(15)) {
        Some(window) => window.iter().all(|letter| b"0x,\t\n".contains(letter)),
        None => false,
    }
}

/// Whether the place is in one of the actions `{ return N; }`.
fn is_in_action(text: &[u8], place: usize) -> bool {
    let first = place.saturating_sub(12);
    let window = text.get(first..place.saturating_add(13)).unwrap_or(&[]);
    match memmem::find(window, b"{ return ") {
        Some(found) => {
            let start = first.saturating_add(found);
            start <= place && place < start.saturating_add(13)
        }
        None => false,
    }
}

/// Whether the place is in the name of a source, at a letter that stands for itself.
fn is_in_name(text: &[u8], place: usize) -> bool {
    is_in_word(text, place, b"a\\\"b.re", 1) || is_in_word(text, place, b"a.re", 4)
}

/// Whether the place is in one of the words, and at none of two letters from this one on.
fn is_in_word(text: &[u8], place: usize, word: &[u8], but: usize) -> bool {
    let first = place.saturating_sub(word.len().saturating_sub(1));
    let window = text
        .get(first..place.saturating_add(word.len()))
        .unwrap_or(&[]);
    match memmem::find(window, word) {
        Some(found) => {
            let start = first.saturating_add(found);
            let offset = place.saturating_sub(start);
            let is_other = offset < but || but.saturating_add(1) < offset;
            start <= place && offset < word.len() && is_other
        }
        None => false,
    }
}

/// The text of a piece with so many blocks.
fn repeated(alloc: Global, count: u32) -> Result<Vec<u8>, AllocError> {
    let mut bytes = front_of(alloc, CONTEXT, b"yy1_0:")?;
    for block in 0..count {
        let text = block_text(alloc, block)?;
        bytes.extend_from_slice(text.as_bytes())?;
    }
    bytes.extend_from_slice(b"yy1_none:;\n}\n/*!end:re2c*/")?;
    Ok(bytes)
}

/// The text of a piece of format 3 with so many blocks.
fn repeated_tests(alloc: Global, count: u32) -> Result<Vec<u8>, AllocError> {
    let mut bytes = front_of(alloc, TESTED, b"yy4_0:")?;
    for block in 0..count {
        let text = tests_text(alloc, block)?;
        bytes.extend_from_slice(text.as_bytes())?;
    }
    bytes.extend_from_slice(b"}\n/*!end:re2c*/")?;
    Ok(bytes)
}

/// What stands before a word in a text.
fn front_of(alloc: Global, text: &[u8], word: &[u8]) -> Result<Vec<u8>, AllocError> {
    let head = memmem::find(text, word).unwrap_or(0);
    Vec::from_slice(alloc, text.get(..head).unwrap_or(&[]))
}

/// A block that goes back to itself.
fn block_text(alloc: Global, block: u32) -> Result<String, AllocError> {
    format!(in alloc;
        "yy1_{block}:\n\tyych = *YYCURSOR;\n\tif (yych <= 0x60) goto yy1_{block};\n\tYYCTXMARKER = YYCURSOR;\n\tgoto yy1_{block};\n"
    )
}

/// A block that goes back to itself by each of the tests of format 3.
fn tests_text(alloc: Global, block: u32) -> Result<String, AllocError> {
    format!(in alloc;
        "yy4_{block}:\n\tyych = *YYCURSOR;\n\tif (yych == 0x61) goto yy4_{block};\n\tif (yybm[yych] & 0x02) goto yy4_{block};\n\tswitch (yych) {{\n\tcase 0x62: case 0x64: goto yy4_{block};\n\tdefault: goto yy4_{block};\n\t}}\n"
    )
}

/// Whether a text begins with a piece, and how many microseconds it takes to read.
fn measured(rt: &HostRuntime, text: &[u8]) -> Result<(bool, u128), Fail> {
    let start = Instant::now(rt)?;
    let is_piece = matches!(read_piece(rt.alloc(), text, 0), Ok(_));
    Ok((is_piece, micros_since(rt, start)?))
}

#[test]
fn time_of_a_large_piece(rt: HostRuntime) -> Result<(), Fail> {
    let old = repeated(rt.alloc(), 100_000)?;
    let (is_piece, micros) = measured(&rt, &old)?;
    assert!(rt; is_piece);
    println!(rt; "reading: {} bytes in {micros} us", old.len())?;
    Ok(())
}

#[test]
fn time_of_a_large_piece_of_format_three(rt: HostRuntime) -> Result<(), Fail> {
    let bytes = repeated_tests(rt.alloc(), 60_000)?;
    let (is_piece, micros) = measured(&rt, &bytes)?;
    assert!(rt; is_piece);
    println!(rt; "reading: {} bytes in {micros} us", bytes.len())?;
    Ok(())
}
