//! Names of the HTML Standard's table, with their code points.

/// Each name, `=`, and its code points in decimal.
pub(crate) const NAMES: &str = "\
    &AElig=198 &AElig;=198 &AMP=38 &AMP;=38 &Aacute=193 &Aacute;=193 &Acirc=194 &Acirc;=194 \
    &Agrave=192 &Agrave;=192 &Aring=197 &Aring;=197 &Atilde=195 &Atilde;=195 &Auml=196 &Auml;=196 \
    &COPY=169 &COPY;=169 &Ccedil=199 &Ccedil;=199 &ClockwiseContourIntegral;=8754 \
    &CounterClockwiseContourIntegral;=8755 &DownLeftVectorBar;=10582 &ETH=208 &ETH;=208 \
    &Eacute=201 &Eacute;=201 &Ecirc=202 &Ecirc;=202 &Egrave=200 &Egrave;=200 &Euml=203 &Euml;=203 \
    &GT=62 &GT;=62 &GreaterEqual;=8805 &Iacute=205 &Iacute;=205 &Icirc=206 &Icirc;=206 \
    &Igrave=204 &Igrave;=204 &Iuml=207 &Iuml;=207 &Kcedil;=310 &LT=60 &LT;=60 \
    &LowerRightArrow;=8600 &NotEqualTilde;=8770,824 &NotGreaterSlantEqual;=10878,824 \
    &NotLeftTriangleBar;=10703,824 &NotNestedGreaterGreater;=10914,824 \
    &NotPrecedesSlantEqual;=8928 &NotRightTriangleBar;=10704,824 &NotSubset;=8834,8402 \
    &NotSuperset;=8835,8402 &Ntilde=209 &Ntilde;=209 &Oacute=211 &Oacute;=211 &Ocirc=212 \
    &Ocirc;=212 &Ograve=210 &Ograve;=210 &Oslash=216 &Oslash;=216 &Otilde=213 &Otilde;=213 \
    &Ouml=214 &Ouml;=214 &PlusMinus;=177 &QUOT=34 &QUOT;=34 &REG=174 &REG;=174 &Rrightarrow;=8667 \
    &THORN=222 &THORN;=222 &ThickSpace;=8287,8202 &TildeEqual;=8771 &Uacute=218 &Uacute;=218 \
    &Ucirc=219 &Ucirc;=219 &Ugrave=217 &Ugrave;=217 &Uuml=220 &Uuml;=220 &Vfr;=120089 &Yacute=221 \
    &Yacute;=221 &aacute=225 &aacute;=225 &acirc=226 &acirc;=226 &acute=180 &acute;=180 \
    &aelig=230 &aelig;=230 &agrave=224 &agrave;=224 &amp=38 &amp;=38 &andd;=10844 &aring=229 \
    &aring;=229 &atilde=227 &atilde;=227 &auml=228 &auml;=228 &bepsi;=1014 &bne;=61,8421 \
    &boxdR;=9554 &brvbar=166 &brvbar;=166 &ccedil=231 &ccedil;=231 &cedil=184 &cedil;=184 \
    &cent=162 &cent;=162 &copy=169 &copy;=169 &cupdot;=8845 &cups;=8746,65024 &curren=164 \
    &curren;=164 &deg=176 &deg;=176 &divide=247 &divide;=247 &doteqdot;=8785 &eacute=233 \
    &eacute;=233 &ecirc=234 &ecirc;=234 &egrave=232 &egrave;=232 &epar;=8917 &eth=240 &eth;=240 \
    &euml=235 &euml;=235 &fjlig;=102,106 &frac12=189 &frac12;=189 &frac14=188 &frac14;=188 \
    &frac34=190 &frac34;=190 &gt=62 &gt;=62 &gtquest;=10876 &gvertneqq;=8809,65024 &iacute=237 \
    &iacute;=237 &icirc=238 &icirc;=238 &iexcl=161 &iexcl;=161 &igrave=236 &igrave;=236 \
    &imagpart;=8465 &iquest=191 &iquest;=191 &iuml=239 &iuml;=239 &laemptyv;=10676 &laquo=171 \
    &laquo;=171 &lesg;=8922,65024 &lscr;=120001 &lt=60 &lt;=60 &ltcc;=10918 &mp;=8723 \
    &nGg;=8921,824 &nLl;=8920,824 &nang;=8736,8402 &nbump;=8782,824 &nedot;=8784,824 \
    &ngeqq;=8807,824 &ngtr;=8815 &nlE;=8806,824 &nles;=10877,824 &not=172 &not;=172 &notin;=8713 \
    &notinE;=8953,824 &notindot;=8949,824 &notinva;=8713 &notinvb;=8951 &notinvc;=8950 \
    &nparsl;=11005,8421 &npreceq;=10927,824 &nsce;=10928,824 &nshortmid;=8740 \
    &nsubseteqq;=10949,824 &nsupset;=8835,8402 &nvge;=8805,8402 &ocirc;=244 &parsl;=11005 \
    &prurel;=8880 &rdquor;=8221 &sbquo;=8218 &smtes;=10924,65024 &succsim;=8831 &times;=215 \
    &uml;=168 &vopf;=120167 &zcy;=1079";
